ghost use Rattle.std.specs.Prelude.{◌≡◌, ◌≤◌, length, IfOk};

use crate::{Found, Got, Shelf, Source};
use epl_values::Text;
use std::io::{ErrorKind, Read};
use std::rt::Files;
use std::{fs, io};

/// Reads, and reads again where a signal interrupts it.
fn read_again<F: Read>(file: &mut F, into: &mut [u8]) -> io::Result<usize>
    ensures { IfOk result (λ count. count ≤ length into.old) }
{
    'tries: for _ in 0..u64::MAX {
        match file.read(into) {
            Err(error) if error.kind() == ErrorKind::Interrupted => {}
            answer => return answer,
        }
    }
    file.read(into)
}

/// Real files. It tells nothing of what they hold. An open that finds no file counts as a name missed, and every
/// other open or read that fails as a fault. An open or read that a signal interrupts is made again.
#[derive(Drop)]
pub struct DiskShelf<R: Files + Drop> {
    rt: R,
    file: Option<R::File>,
    faults: u64,
    missed: u64,
}

impl<R: Files + Drop> DiskShelf<R> {
    /// The files that the runtime opens, of which none is begun.
    pub fn new(rt: R) -> DiskShelf<R>
        ensures { (result.faults ≡ 0) × (result.missed ≡ 0) }
    {
        DiskShelf {
            rt,
            file: None,
            faults: 0,
            missed: 0,
        }
    }
}

impl<R: Files + Drop> Source for DiskShelf<R> {
    ghost use Rattle.std.specs.Prelude.{None};

    ghost faults = { λ s. s.faults };

    ghost missed = { λ s. s.missed };

    ghost told = { λ _. None };

    fn read(&mut self, into: &mut [u8]) -> Got {
        let answer = match &mut self.file {
            None => return Got::End,
            Some(file) => read_again(file, into),
        };
        match answer {
            Ok(0) => Got::End,
            Ok(count) => Got::Bytes(count),
            Err(_) => {
                self.faults = self.faults.saturating_add(1);
                Got::Failed
            }
        }
    }
}

impl<R: Files + Drop> Shelf for DiskShelf<R> {
    fn begin(&mut self, name: Text) -> Found {
        self.file = None;
        match fs::open(&self.rt, name.as_str()) {
            Ok(file) => {
                self.file = Some(file);
                Found::Here
            }
            Err(error) => {
                if error.kind() == ErrorKind::NotFound {
                    self.missed = self.missed.saturating_add(1);
                    return Found::Missing;
                }
                self.faults = self.faults.saturating_add(1);
                Found::Failed
            }
        }
    }
}
