use epl_values::{Memory, Text};
use program_reader::ProgramFault;
use run_face::WordsFault;

/// Why there is no run. The texts are names of files.
#[derive(Debug, Drop)]
pub enum Refusal {
    /// The words are no command.
    Words,
    /// A file that isn't there.
    Missing(Text),
    /// A file that couldn't be read.
    Read(Text),
    /// A file with more bytes than its limit.
    TooLong(Text),
    /// The program file in which it is why there is no program.
    Program(Text, ProgramFault),
    /// An event file, and the first line of it that is refused, from 1.
    Events(Text, u32),
    Memory,
}

impl From<Memory> for Refusal {
    ghost use Rattle.std.specs.Prelude.{◌≡◌};
    ghost use Rattle.correlator_run.specs.declared.refusal.Refusal.TheVariants.{Memory as NoMemory};

    ghost from_gives = { λ _ e. e ≡ NoMemory };

    fn from(_: Memory) -> Refusal {
        Refusal::Memory
    }
}
