ghost use Rattle.std.specs.Prelude.{◌≡◌, ◌<◌, ◌≤◌, length, IfOk, IfSome};

use crate::{Put, Sink};
use std::io;
use std::io::{ErrorKind, Write};

/// Writes a front of the piece, and writes again where a signal interrupts it.
fn write_again<R: Print>(rt: &R, piece: &[u8]) -> io::Result<usize>
    ensures { IfOk result (λ count. count ≤ length piece.now) }
{
    'tries: for _ in 0..u64::MAX {
        match io::writer(rt).write(piece) {
            Err(error) if error.kind() == ErrorKind::Interrupted => {}
            answer => return answer,
        }
    }
    io::writer(rt).write(piece)
}

/// The standard output or the standard error. It tells nothing of what was taken. The standard error takes a
/// piece whole, and fails at one that is not UTF-8. A write that a signal interrupts is made again.
#[derive(Drop)]
pub struct StreamSink<R: Print + Eprint + Drop> {
    rt: R,
    error: bool,
    faults: u64,
}

impl<R: Print + Eprint + Drop> StreamSink<R> {
    /// The standard error, or else the standard output.
    pub fn new(rt: R, error: bool) -> StreamSink<R>
        ensures { (result.faults ≡ 0) × (result.error ≡ error) }
    {
        StreamSink {
            rt,
            error,
            faults: 0,
        }
    }

    // Writes a front of the piece, and tells how many bytes.
    fn write_some(&self, piece: &[u8]) -> Option<usize>
        requires { 0 < length piece.now }
        ensures { IfSome result (λ count. (0 < count) × (count ≤ length piece.now)) }
    {
        if self.error {
            let text = str::from_utf8(piece).ok()?;
            self.rt.eprint(text).ok()?;
            return Some(piece.len());
        }
        match write_again(&self.rt, piece) {
            Ok(count) if count > 0 => Some(count),
            _ => None,
        }
    }
}

impl<R: Print + Eprint + Drop> Sink for StreamSink<R> {
    ghost use Rattle.std.specs.Prelude.{None};

    ghost faults = { λ s. s.faults };

    ghost taken = { λ _. None };

    ghost room = { λ _. None };

    fn put(&mut self, piece: &[u8]) -> Put {
        match self.write_some(piece) {
            Some(count) => Put::Took(count),
            None => {
                self.faults = self.faults.saturating_add(1);
                Put::Failed
            }
        }
    }
}
