ghost use Rattle.std.specs.Prelude.{◌≡◌, map, string_bytes, if◌then◌else◌, Some, None};
ghost use Rattle.std.specs.List.{list_all};
ghost use Rattle.std.specs.Option.{option_map};
ghost use Rattle.run_words.specs.Words.{cut, flag_of, is_alone, is_file_word, is_known, value_of, values_of};
ghost use Rattle.run_words.specs.Steps.{TakesOff, given_of};

/// An option that is given, and the word behind it.
#[derive(Clone, Copy)]
struct Given<'a> {
    name: &'a str,
    value: Option<&'a str>,
}

/// Words of which options may still be taken off.
#[derive(Drop)]
struct OptionWords<'a> {
    rest: &'a [String],
}

pub fn is_file_word(word: &str) -> bool
    ensures { result ≡ is_file_word word.now }
{
    match word.as_bytes() {
        [] => false,
        [first, ..] => *first != b'-',
    }
}

impl<'a> OptionWords<'a> {
    /// Takes off the option in front, if there is one.
    fn next(&mut self) -> Option<Given<'a>>
        ensures { TakesOff (map string_bytes self.old.rest.now) (map string_bytes self.new.rest.now) (option_map (λ g. given_of g.name.now (option_map (λ v. v.now) g.value)) result) }
    {
        let [name, behind @ ..] = self.rest else {
            return None;
        };
        let name = name.as_str();
        if is_file_word(name) {
            return None;
        }
        self.rest = behind;
        if name == "--serial" {
            return Some(Given { name, value: None });
        }
        let [value, others @ ..] = behind else {
            return Some(Given { name, value: None });
        };
        self.rest = others;
        Some(Given {
            name,
            value: Some(value.as_str()),
        })
    }
}

fn is_known(name: &str) -> bool
    ensures { result ≡ is_known name.now }
{
    name == "--serial"
        || name == "--schedule"
        || name == "--fuel"
        || name == "--contexts"
        || name == "--mailbox"
        || name == "--events"
}

/// The words behind the options. No answer where an option isn't known.
pub fn behind_options(words: &[String]) -> Option<&[String]>
    ensures { option_map (λ rest. map string_bytes rest.now) result ≡ (if list_all (λ g. is_known g.name) (cut (map string_bytes words.now)).given then Some (cut (map string_bytes words.now)).programs else None) }
{
    let mut options = OptionWords { rest: words };
    'options: while let Some(given) = options.next() {
        if !is_known(given.name) {
            return None;
        }
    }
    Some(options.rest)
}

/// Whether the option of this name is given, without a value. No answer where it isn't given so, or twice.
pub fn flag_of(words: &[String], name: &str) -> Option<bool>
    ensures { result ≡ flag_of (values_of name.now (cut (map string_bytes words.now)).given) }
{
    let mut found = false;
    let mut options = OptionWords { rest: words };
    'options: while let Some(given) = options.next() {
        if given.name == name {
            if found || given.value.is_some() {
                return None;
            }
            found = true;
        }
    }
    Some(found)
}

/// The value of the option of this name, if it is given. No answer where it is given without one, or twice.
pub fn value_of<'a>(words: &'a [String], name: &str) -> Option<Option<&'a str>>
    ensures { option_map (λ found. option_map (λ v. v.now) found) result ≡ value_of (values_of name.now (cut (map string_bytes words.now)).given) }
{
    let mut found: Option<&'a str> = None;
    let mut options = OptionWords { rest: words };
    'options: while let Some(given) = options.next() {
        if given.name == name {
            if found.is_some() {
                return None;
            }
            let Some(value) = given.value else {
                return None;
            };
            found = Some(value);
        }
    }
    Some(found)
}
