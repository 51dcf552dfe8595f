ghost use Rattle.std.specs.Prelude.{◌≡◌, []};

use epl_values::List;

/// Numbers of calls, from 1.
pub type Calls = List<u64>;

/// Which calls fail, and how many there were.
#[derive(Debug, Drop)]
pub struct Plan {
    failing: Calls,
    calls: u64,
}

impl Plan {
    ghost use Rattle.outside.specs.Plan.{counted, next_fails};

    /// The plan before the first call.
    pub fn new(failing: Calls) -> Plan
        ensures calls { result.calls ≡ 0 }
        ensures failing { result.failing ≡ failing }
    {
        Plan { failing, calls: 0 }
    }

    /// Counts a call, and tells whether it fails.
    pub fn fails(&mut self) -> bool
        ensures answer { result ≡ next_fails self.old }
        ensures counts { self.new ≡ counted self.old }
    {
        self.calls = self.calls.saturating_add(1);
        self.failing.as_slice().contains(&self.calls)
    }
}
