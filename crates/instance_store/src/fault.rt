use slot_arena::Stale;
use std::alloc::AllocError;
use thiserror::Error;

/// Why a channel isn't held.
#[derive(Clone, Copy, Debug, PartialEq, Eq, Error)]
pub enum HoldFault {
    #[error("the key names nothing any more")]
    Stale,
    #[error("there is no memory")]
    Memory,
}

impl From<Stale> for HoldFault {
    ghost use Rattle.std.specs.Prelude.{◌≡◌};
    ghost use Rattle.instance_store.specs.declared.fault.HoldFault.TheVariants.{Stale as IsStale};

    ghost from_gives = { λ _ e. e ≡ IsStale };

    fn from(_: Stale) -> HoldFault {
        HoldFault::Stale
    }
}

impl From<AllocError> for HoldFault {
    ghost use Rattle.std.specs.Prelude.{◌≡◌};
    ghost use Rattle.instance_store.specs.declared.fault.HoldFault.TheVariants.{Memory as NoMemory};

    ghost from_gives = { λ _ e. e ≡ NoMemory };

    fn from(_: AllocError) -> HoldFault {
        HoldFault::Memory
    }
}
