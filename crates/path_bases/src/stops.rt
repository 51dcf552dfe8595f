ghost use Rattle.std.specs.Prelude.{◌≡◌};
ghost use Rattle.path_bases.specs.Stops.{stop_by};

use value_steps::Trouble;
use walk_rules::Stop;

/// Why a step on values stops a run.
pub fn stop_of(trouble: Trouble) -> Stop
    ensures { result ≡ stop_by trouble }
{
    match trouble {
        Trouble::Fault(fault) => Stop::from(fault),
        Trouble::Memory => Stop::Memory,
    }
}
