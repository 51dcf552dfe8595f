use action_host::Fault;
use body_meaning::Halt;
use std::alloc::AllocError;

/// Why a call stops at once: the body ends, or memory is wanting.
#[derive(Drop)]
pub enum Stop {
    Halted(Halt),
    Memory,
}

impl From<AllocError> for Stop {
    ghost use Rattle.std.specs.Prelude.{◌≡◌};
    ghost use Rattle.walk_rules.specs.declared.stop.Stop.TheVariants.{Memory};

    ghost from_gives = { λ _ e. e ≡ Memory };

    fn from(_e: AllocError) -> Stop {
        Stop::Memory
    }
}

impl From<Fault> for Stop {
    ghost use Rattle.std.specs.Prelude.{◌≡◌};
    ghost use Rattle.body_meaning.specs.declared.run.Halt.TheVariants.{Failed};
    ghost use Rattle.walk_rules.specs.declared.stop.Stop.TheVariants.{Halted};

    ghost from_gives = { λ fault e. e ≡ Halted (Failed fault) };

    fn from(fault: Fault) -> Stop {
        Stop::Halted(Halt::Failed(fault))
    }
}
