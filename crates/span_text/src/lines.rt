ghost use Rattle.std.specs.Prelude.{◌≡◌, ◌+◌, ◌<◌, length, IfSome};
ghost use Rattle.std.specs.List.{position};
ghost use Rattle.std.specs.Str.{IsCharBoundary};
ghost use Rattle.std.specs.Str.Lines.{strip_carriage_return};
ghost use Rattle.span_text.specs.Place.{is_newline};

use std::marker::Model;

/// The lines of a text, without their ends. Contracts see it as the text that is left.
#[derive(Drop)]
pub struct TextLines<'a> {
    rest: &'a str,
}

impl<'a> Model for TextLines<'a> {
    ghost use Rattle.std.specs.Prelude.{List, ℕ};

    ghost Value = { List ℕ };

    ghost view = { λ s. s.rest.now };
}

/// The lines of a text, which end with `\n` or `\r\n`; the last one may have no end.
pub fn lines_of(text: &str) -> TextLines<'_>
    requires { length text.now < 4294967295 }
    ensures { result ≡ text.entry.now }
{
    TextLines { rest: text }
}

impl<'a> Iterator for TextLines<'a> {
    ghost use Rattle.std.specs.Str.Lines.{lines};
    ghost use Rattle.std.specs.Iterator.{YieldsFirstRef, item_count};

    type Item = &'a str;

    ghost next_gives = { YieldsFirstRef lines };

    ghost remaining = { item_count lines };

    fn next(&mut self) -> Option<&'a str> {
        let text = self.rest;
        if text.is_empty() {
            return None;
        }
        let Some(end) = newline_in(text) else {
            self.rest = "";
            return Some(text);
        };
        self.rest = &text[end + 1..];
        Some(without_return(&text[..end]))
    }
}

/// The place of the first newline, before and behind which the text may be cut.
fn newline_in(text: &str) -> Option<usize>
    ensures place { result ≡ position is_newline text.now }
    ensures cuts { IfSome result (λ at. IsCharBoundary text.now at × IsCharBoundary text.now (at + 1)) }
{
    first_newline(text.as_bytes())
}

fn first_newline(bytes: &[u8]) -> Option<usize>
    ensures { result ≡ position is_newline bytes.now }
{
    bytes.iter().position(|&byte| byte == b'\n')
}

/// The line without the one carriage return at its end, if it has one.
fn without_return(line: &str) -> &str
    ensures { result.now ≡ strip_carriage_return line.now }
{
    let bytes = line.as_bytes();
    if bytes.is_empty() || bytes[bytes.len() - 1] != b'\r' {
        return line;
    }
    &line[..bytes.len() - 1]
}
