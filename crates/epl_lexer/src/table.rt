//! Places of words in a table.

ghost use Rattle.std.specs.Prelude.{◌≡◌, ◌<◌, length, IfSome};
ghost use Rattle.std.specs.List.{position};
ghost use Rattle.std.specs.Str.{bytes_eq};

/// The first place of a word in a table.
pub(crate) fn place_in(table: &[&str], word: &[u8]) -> Option<usize>
    ensures place { result ≡ position (λ entry. bytes_eq entry.now word.now) table.now }
    ensures inside { IfSome result (λ place. place < length table.now) }
{
    table.iter().position(|&entry| entry.as_bytes() == word)
}
