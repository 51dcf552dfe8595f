ghost use Rattle.std.specs.Option.{option_map};
ghost use Rattle.std.specs.Prelude.{◌≡◌, ◌∷◌, ◌<◌, ◌≤◌, ⊤, length, slice_index, MatchOption};
ghost use Rattle.evt_text.specs.Reading.{behind_blanks, behind_sign, behind_name, digit_at};
ghost use Rattle.evt_text.specs.Spelling.{is_blank};

fn is_blank(byte: u8) -> bool
    ensures { result ≡ is_blank byte }
{
    byte == b' ' || byte == b'\t'
}

pub fn behind_first(text: &str) -> &str
    requires some { 0 < length text.now }
    requires ascii { slice_index text.now 0 < 128 }
    ensures { text.now ≡ slice_index text.now 0 ∷ result.now }
{
    &text[1..]
}

/// What follows a sign, if it is in front.
pub fn behind_sign(text: &str, sign: char) -> Option<&str>
    requires { sign < 128 }
    ensures { option_map (λ rest. rest.now) result ≡ behind_sign sign text.now }
{
    text.strip_prefix(sign)
}

/// What follows a name, if it is in front.
pub fn behind_name<'a>(text: &'a str, name: &str) -> Option<&'a str>
    ensures { option_map (λ rest. rest.now) result ≡ behind_name name.now text.now }
{
    text.strip_prefix(name)
}

/// What follows the blanks, spaces and tabs, in front.
pub fn behind_blanks(text: &str) -> &str
    ensures { result.now ≡ behind_blanks text.now }
{
    let mut rest = text;
    'blanks: while let Some(byte) = rest.as_bytes().first() {
        if !is_blank(*byte) {
            return rest;
        }
        rest = behind_first(rest);
    }
    rest
}

/// The value of the digit in front, and what follows it.
pub fn digit_at(text: &str) -> Option<(u64, &str)>
    ensures read { MatchOption result (digit_at text.now ≡ None) (λ r. digit_at text.now ≡ Some (r.0, r.1.now)) }
    ensures small { MatchOption result ⊤ (λ r. r.0 ≤ 9) }
{
    let byte = *text.as_bytes().first()?;
    if !byte.is_ascii_digit() {
        return None;
    }
    Some((u64::from(byte - b'0'), behind_first(text)))
}
