use span_text::Spot;
use std::alloc::AllocError;
use thiserror::Error;

/// Why a program isn't accepted.
#[derive(Clone, Copy, Debug, Drop, Error)]
pub enum CheckFault {
    /// Its first typing fault: the code, the number of the file, and the spot.
    #[error("type {0}")]
    Typing(u8, u32, Spot),
    #[error("no memory")]
    Memory,
}

/// A typing fault: its code, from 1 to 20, and its spot.
#[derive(Clone, Copy, Debug, Drop)]
pub struct Fault {
    pub code: u8,
    pub spot: Spot,
}

/// Why a part of a program isn't accepted.
#[derive(Clone, Copy, Debug, Drop, Error)]
pub enum Refusal {
    /// Its first fault.
    #[error("type {}", .0.code)]
    Fault(Fault),
    #[error("no memory")]
    Memory,
}

impl From<AllocError> for Refusal {
    ghost use Rattle.std.specs.Prelude.{◌≡◌};
    ghost use Rattle.type_table.specs.declared.fault.Refusal.TheVariants.{Memory as NoMemory};

    ghost from_gives = { λ _ e. e ≡ NoMemory };

    fn from(_: AllocError) -> Refusal {
        Refusal::Memory
    }
}

impl From<AllocError> for CheckFault {
    ghost use Rattle.std.specs.Prelude.{◌≡◌};
    ghost use Rattle.type_table.specs.declared.fault.CheckFault.TheVariants.{Memory as NoMemory};

    ghost from_gives = { λ _ e. e ≡ NoMemory };

    fn from(_: AllocError) -> CheckFault {
        CheckFault::Memory
    }
}
