use action_host::Fault;
use std::alloc::AllocError;

/// Why a step on values gives nothing.
#[derive(Drop)]
pub enum Trouble {
    Fault(Fault),
    Memory,
}

impl From<AllocError> for Trouble {
    ghost use Rattle.std.specs.Prelude.{◌≡◌};
    ghost use Rattle.value_steps.specs.declared.trouble.Trouble.TheVariants.{Memory};

    ghost from_gives = { λ _ trouble. trouble ≡ Memory };

    fn from(_error: AllocError) -> Trouble {
        Trouble::Memory
    }
}

impl From<Fault> for Trouble {
    ghost use Rattle.std.specs.Prelude.{◌≡◌};
    ghost use Rattle.value_steps.specs.declared.trouble.Trouble.TheVariants.{Fault as Faulty};

    ghost from_gives = { λ fault trouble. trouble ≡ Faulty fault };

    fn from(fault: Fault) -> Trouble {
        Trouble::Fault(fault)
    }
}
