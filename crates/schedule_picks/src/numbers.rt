ghost use Rattle.std.specs.Prelude.{◌≡◌, ◌≤◌, ◌<◌, MatchOption};
ghost use Rattle.std.specs.List.{list_all};
ghost use Rattle.schedule_picks.specs.Numbers.{is_digit, number_behind, number_in};

fn is_digit(byte: u8) -> bool
    ensures { result ≡ is_digit byte }
{
    b'0' <= byte && byte <= b'9'
}

fn are_digits(word: &[u8]) -> bool
    ensures { result ≡ list_all is_digit word.now }
{
    word.iter().all(|byte| is_digit(*byte))
}

/// What digits count, if it is at most `most`.
fn number_within(most: u8, word: &[u8]) -> Option<u8>
    ensures { MatchOption result (most < number_behind 0 word.now) (λ number. (number ≡ number_behind 0 word.now) × (number ≤ most)) }
{
    let mut number: u32 = 0;
    'digits: for byte in word {
        number = 10 * number + u32::from(byte.saturating_sub(b'0'));
        if number > u32::from(most) {
            return None;
        }
    }
    Some(number as u8)
}

/// The number that a word writes in decimal digits, if it is at most `most`.
pub fn number_in(most: u8, word: &[u8]) -> Option<u8>
    ensures { result ≡ number_in most word.now }
{
    if are_digits(word) {
        number_within(most, word)
    } else {
        None
    }
}
