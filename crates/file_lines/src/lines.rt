ghost use Rattle.std.specs.Option.{option_map};
ghost use Rattle.std.specs.List.{position_or_len};
ghost use Rattle.std.specs.Prelude.{◌≡◌, ◌≤◌, ◌==◌, length};
ghost use Rattle.std.specs.Str.Lines.{strip_carriage_return};
ghost use Rattle.file_lines.specs.Lines.{TakesOff, without_mark};

/// The bytes of a file without the byte order mark that may lead them.
pub fn without_mark(bytes: &[u8]) -> &[u8]
    ensures mark { result.now ≡ without_mark bytes.now }
    ensures within { length result.now ≤ length bytes.now }
{
    match bytes {
        [239, 187, 191, rest @ ..] => rest,
        _ => bytes,
    }
}

fn strip_carriage_return(line: &[u8]) -> &[u8]
    ensures { result.now ≡ strip_carriage_return line.now }
{
    match line {
        [front @ .., b'\r'] => front,
        _ => line,
    }
}

fn line_len(bytes: &[u8]) -> usize
    ensures count { result ≡ position_or_len (λ b. b == 10) bytes.now }
    ensures within { result ≤ length bytes.now }
{
    for (at, byte) in bytes.iter().enumerate() {
        if *byte == b'\n' {
            return at;
        }
    }
    bytes.len()
}

/// The lines of a file that are still to be read. Lines end with `\n` or `\r\n`; the last one may have no end.
#[derive(Drop)]
pub struct FileLines<'a> {
    pub rest: &'a [u8],
}

impl<'a> FileLines<'a> {
    /// Takes off the next line, without its end.
    pub fn next(&mut self) -> Option<&'a [u8]>
        ensures { TakesOff self.old.rest.now self.new.rest.now (option_map (λ line. line.now) result) }
    {
        if self.rest.is_empty() {
            return None;
        }
        let whole = self.rest;
        let end = line_len(whole);
        if end == whole.len() {
            self.rest = &whole[end..];
            return Some(whole);
        }
        self.rest = &whole[end + 1..];
        Some(strip_carriage_return(&whole[..end]))
    }
}
