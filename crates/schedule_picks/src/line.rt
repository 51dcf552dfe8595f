ghost use Rattle.std.specs.Prelude.{◌≡◌, ◌≢◌, ◌∷◌, ◌≤◌, [], length, Some, None, MatchOption};
ghost use Rattle.std.specs.List.{position_or_len};
ghost use Rattle.schedule_picks.specs.Picks.{is_blank, pick_in, words_of};
ghost use Rattle.schedule_picks.specs.Steps.{Parts};

use crate::numbers::number_in;

/// Whose turn it is: the actor that handles an entry, and, if a sender is named, the sender of that entry.
#[derive(Clone, Copy)]
pub struct Pick {
    pub actor: u8,
    pub sender: Option<u8>,
}

fn is_blank(byte: u8) -> bool
    ensures { result ≡ is_blank byte }
{
    byte == b' ' || byte == b'\t'
}

fn word_len(text: &[u8]) -> usize
    ensures count { result ≡ position_or_len is_blank text.now }
    ensures within { result ≤ length text.now }
{
    for (at, byte) in text.iter().enumerate() {
        if is_blank(*byte) {
            return at;
        }
    }
    text.len()
}

/// What follows the blanks in front.
fn behind_blanks(text: &[u8]) -> &[u8]
    ensures { Parts result.now text.now }
{
    let mut rest = text;
    'blanks: while let [first, behind @ ..] = rest {
        if !is_blank(*first) {
            return rest;
        }
        rest = behind;
    }
    rest
}

/// The first word, and what follows it.
fn next_word(text: &[u8]) -> Option<(&[u8], &[u8])>
    ensures { MatchOption result (words_of text.now ≡ []) (λ w. words_of text.now ≡ w.0.now ∷ words_of w.1.now) }
{
    let words = behind_blanks(text);
    if words.is_empty() {
        return None;
    }
    let end = word_len(words);
    if end == words.len() {
        return Some((words, &words[end..]));
    }
    Some((&words[..end], &words[end + 1..]))
}

/// What a line picks, with numbers up to that of the contexts: nothing where it is blank. No answer where it isn't in its form.
pub fn pick_in(contexts: u8, line: &[u8]) -> Option<Option<Pick>>
    ensures { result ≡ pick_in contexts line.now }
{
    let Some((first, behind)) = next_word(line) else {
        return Some(None);
    };
    let Some((second, rest)) = next_word(behind) else {
        let actor = number_in(contexts, first)?;
        return Some(Some(Pick {
            actor,
            sender: None,
        }));
    };
    if next_word(rest).is_some() {
        return None;
    }
    let actor = number_in(contexts, first)?;
    let sender = number_in(contexts, second)?;
    Some(Some(Pick {
        actor,
        sender: Some(sender),
    }))
}
