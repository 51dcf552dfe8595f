use epl_values::Memory;
use thiserror::Error;

/// Why there are no picks.
#[derive(Clone, Copy, Debug, PartialEq, Eq, Error)]
pub enum PicksFault {
    /// The first line that isn't in its form, counted from 1.
    #[error("line {0} is no pick")]
    Line(u32),
    #[error("no memory")]
    Memory,
}

impl From<Memory> for PicksFault {
    ghost use Rattle.std.specs.Prelude.{◌≡◌};
    ghost use Rattle.schedule_picks.specs.declared.fault.PicksFault.TheVariants.{Memory as NoMemory};

    ghost from_gives = { λ _ e. e ≡ NoMemory };

    fn from(_: Memory) -> PicksFault {
        PicksFault::Memory
    }
}
