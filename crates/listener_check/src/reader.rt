ghost use Rattle.std.specs.Prelude.{◌≡◌};
ghost use Rattle.type_table.specs.Found.{told};
ghost use Rattle.listener_check.specs.Bound.{is_own, is_among};
ghost use Rattle.listener_check.specs.Limits.{leaf_read, sum_read};
ghost use Rattle.listener_check.specs.Went.{Goes};

use crate::sofar::Sofar;
use epl_values::Texts;
use span_text::Spot;
use std::alloc::Global;
use type_table::{Fault, Refusal, Scope, Table};

/// Reads an event expression in the scope around it.
#[derive(Drop)]
pub struct Reader<'a> {
    pub alloc: Global,
    pub table: &'a Table,
    /// The names around the event expression.
    pub scope: &'a Scope,
    /// Those names, and behind them the ones that the event expression binds.
    pub inner: &'a Scope,
}

impl Reader<'_> {
    /// Whether a name is one that the event expression binds.
    pub fn is_own(&self, name: &str) -> bool
        ensures { result ≡ is_own self.now.scope.now self.now.inner.now name.now }
    {
        self.scope.seen_of(name).is_none() && self.inner.seen_of(name).is_some()
    }
}

/// Whether a name is one of these.
pub fn is_among(names: &Texts, name: &str) -> bool
    ensures { result ≡ is_among names.now name.now }
{
    names.as_slice().iter().any(|n| n.as_str() == name)
}

/// Counts a leaf; one past the limit is refused.
#[tactic(auto, using(crate::proofs::Going::going), unfolding(crate::specs::Limits::leaf_read))]
pub fn count_leaf(sofar: &mut Sofar, spot: Spot) -> Result<(), Refusal>
    ensures { Goes result (leaf_read spot sofar.old) sofar.new }
{
    if sofar.leaves >= 64 {
        return Err(Refusal::Fault(Fault { code: 4, spot }));
    }
    sofar.leaves += 1;
    Ok(())
}

/// Counts an operand or a duration; one past the limit is refused.
#[tactic(auto, using(crate::proofs::Going::going), unfolding(crate::specs::Limits::sum_read))]
pub fn count_sum(sofar: &mut Sofar, spot: Spot) -> Result<(), Refusal>
    ensures { Goes result (sum_read spot sofar.old) sofar.new }
{
    if sofar.sums >= 192 {
        return Err(Refusal::Fault(Fault { code: 4, spot }));
    }
    sofar.sums += 1;
    Ok(())
}
