ghost use Rattle.std.specs.Prelude.{◌≡◌, ◌≤◌, ◌<◌, IfSome, MatchOption};
ghost use Rattle.std.specs.List.{list_all};
ghost use Rattle.run_words.specs.Numbers.{is_digit, is_number, number_behind, number_in};

fn is_digit(byte: u8) -> bool
    ensures { result ≡ is_digit byte }
{
    b'0' <= byte && byte <= b'9'
}

fn are_digits(word: &[u8]) -> bool
    ensures { result ≡ list_all is_digit word.now }
{
    word.iter().all(|byte| is_digit(*byte))
}

fn is_number(word: &str) -> bool
    ensures { result ≡ is_number word.now }
{
    match word.as_bytes() {
        [] => false,
        [first, ..] => are_digits(word.as_bytes()) && *first != b'0',
    }
}

/// What digits count, if it is at most `most`.
fn number_within(most: u32, word: &str) -> Option<u32>
    requires { most ≤ 20000000 }
    ensures { MatchOption result (most < number_behind 0 word.now) (λ number. (number ≡ number_behind 0 word.now) × (number ≤ most)) }
{
    let mut number: u32 = 0;
    'digits: for byte in word.as_bytes() {
        number = 10 * number + u32::from(byte.saturating_sub(b'0'));
        if number > most {
            return None;
        }
    }
    Some(number)
}

/// The number that a word writes in decimal digits, if it is from 1 to `most`.
pub fn number_in(most: u32, word: &str) -> Option<u32>
    requires { most ≤ 20000000 }
    ensures number { result ≡ number_in most word.now }
    ensures bounds { IfSome result (λ number. (1 ≤ number) × (number ≤ most)) }
{
    if is_number(word) {
        number_within(most, word)
    } else {
        None
    }
}
