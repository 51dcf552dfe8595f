ghost use Rattle.std.specs.Option.{option_map};
ghost use Rattle.std.specs.Prelude.{◌≡◌, ◌∷◌, [], ◌<◌, false, length, MatchOption};
ghost use Rattle.evt_text.specs.Reading.{Reads, Passes, Closes, behind_blanks, behind_opening, truth_at, behind_sign, behind_name, integer_at, inside_from, plain_front, behind_plain, escape_at, string_at};
ghost use Rattle.evt_text.specs.Spelling.{escaped};

use crate::TextFault;
use crate::numbers::integer_at;
use crate::parts::{behind_blanks, behind_first, behind_name, behind_sign};
use epl_values::Text;
use std::alloc::Global;

/// The most bytes of a string.
const MOST_BYTES: usize = 1_048_576;

/// What is left of a text that is read from left to right.
#[derive(Drop)]
pub struct Scanner<'a> {
    pub rest: &'a str,
}

fn plain_len(text: &str) -> usize
    ensures { result ≡ length (plain_front text.now) }
{
    for (at, byte) in text.as_bytes().iter().enumerate() {
        if *byte == b'"' || *byte == b'\\' || *byte == b'\n' {
            return at;
        }
    }
    text.len()
}

fn escaped(letter: u8) -> Option<&'static str>
    ensures { option_map (λ piece. piece.now) result ≡ option_map (λ byte. byte ∷ []) (escaped letter) }
{
    if letter == b'"' {
        Some("\"")
    } else if letter == b'\\' {
        Some("\\")
    } else if letter == b'n' {
        Some("\n")
    } else if letter == b'r' {
        Some("\r")
    } else if letter == b't' {
        Some("\t")
    } else {
        None
    }
}

impl<'a> Scanner<'a> {
    /// Passes blanks.
    pub fn blanks(&mut self)
        ensures { self.new.rest.now ≡ behind_blanks self.old.rest.now }
    {
        self.rest = behind_blanks(self.rest);
    }

    /// Passes a sign.
    pub fn sign(&mut self, sign: char) -> Result<(), TextFault>
        requires { sign < 128 }
        ensures { Passes result self.new.rest.now (behind_sign sign self.old.rest.now) }
    {
        let Some(rest) = behind_sign(self.rest, sign) else {
            return Err(TextFault::NoValue);
        };
        self.rest = rest;
        Ok(())
    }

    /// Passes an opening sign and the blanks behind it.
    #[tactic(auto, unfolding(crate::specs::Reading::behind_opening))]
    pub fn opens(&mut self, sign: char) -> Result<(), TextFault>
        requires { sign < 128 }
        ensures { Passes result self.new.rest.now (behind_opening sign self.old.rest.now) }
    {
        self.sign(sign)?;
        self.blanks();
        Ok(())
    }

    /// Whether a closing sign is in front; then it is passed, and else nothing is.
    pub fn closes(&mut self, sign: char) -> bool
        requires { sign < 128 }
        ensures { Closes result sign self.old.rest.now self.new.rest.now }
    {
        let Some(rest) = behind_sign(self.rest, sign) else {
            return false;
        };
        self.rest = rest;
        true
    }

    /// Passes a name.
    pub fn name(&mut self, name: &str) -> Result<(), TextFault>
        ensures { Passes result self.new.rest.now (behind_name name.now self.old.rest.now) }
    {
        let Some(rest) = behind_name(self.rest, name) else {
            return Err(TextFault::NoValue);
        };
        self.rest = rest;
        Ok(())
    }

    /// Reads `true` or `false`.
    #[tactic(auto, unfolding(crate::specs::Reading::truth_at))]
    pub fn truth(&mut self) -> Result<bool, TextFault>
        ensures { Reads result self.new.rest.now (truth_at self.old.rest.now) }
    {
        if let Some(rest) = behind_name(self.rest, "true") {
            self.rest = rest;
            return Ok(true);
        }
        self.name("false")?;
        Ok(false)
    }

    /// Reads an integer.
    pub fn integer(&mut self) -> Result<i64, TextFault>
        ensures { Reads result self.new.rest.now (integer_at self.old.rest.now) }
    {
        let Some((number, rest)) = integer_at(self.rest) else {
            return Err(TextFault::NoValue);
        };
        self.rest = rest;
        Ok(number)
    }

    fn plain(&mut self) -> &'a str
        ensures front { result.now ≡ plain_front self.old.rest.now }
        ensures rest { self.new.rest.now ≡ behind_plain self.old.rest.now }
    {
        let (front, rest) = self.rest.split_at(plain_len(self.rest));
        self.rest = rest;
        front
    }

    #[tactic(auto, unfolding(crate::specs::Reading::escape_at))]
    fn escape(&mut self) -> Option<&'static str>
        ensures { MatchOption result (escape_at self.old.rest.now ≡ None) (λ piece. escape_at self.old.rest.now ≡ Some (piece.now, self.new.rest.now)) }
    {
        let rest = behind_sign(self.rest, '\\')?;
        let letter = *rest.as_bytes().first()?;
        let piece = escaped(letter)?;
        self.rest = behind_first(rest);
        Some(piece)
    }

    fn inside(&mut self, alloc: Global) -> Result<Text, TextFault>
        ensures { Reads result self.new.rest.now (inside_from false self.old.rest.now) }
    {
        let mut value = Text::new(alloc);
        'pieces: loop {
            value.push(self.plain())?;
            if let Some(rest) = behind_sign(self.rest, '"') {
                self.rest = rest;
                return Ok(value);
            }
            let Some(piece) = self.escape() else {
                return Err(TextFault::NoValue);
            };
            value.push(piece)?;
        }
    }

    /// Reads a string with its quotes.
    #[tactic(auto, unfolding(crate::specs::Reading::string_at))]
    pub fn string(&mut self, alloc: Global) -> Result<Text, TextFault>
        ensures { Reads result self.new.rest.now (string_at self.old.rest.now) }
    {
        self.sign('"')?;
        let value = self.inside(alloc)?;
        if value.len() > MOST_BYTES {
            return Err(TextFault::NoValue);
        }
        Ok(value)
    }
}
