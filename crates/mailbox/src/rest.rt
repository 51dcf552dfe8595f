ghost use Rattle.std.specs.Prelude.{◌≡◌, [], ◌∷◌, MatchOption};

use std::collections::VecDeque;
use std::marker::Model;

/// What was left in a mailbox, the oldest entry first.
#[derive(Drop)]
pub struct Rest<E> {
    pub(crate) items: VecDeque<E>,
}

impl<E> Model for Rest<E> {
    ghost use Rattle.std.specs.Prelude.{List as Listed};
    ghost use Rattle.std.specs.Coded.{coded_list};

    ghost Value = { Listed E };

    ghost coded = { coded_list E.code };

    ghost view = { λ r. r.items.items };
}

impl<E> Rest<E> {
    /// Takes the oldest entry; `None` exactly where nothing is left.
    pub fn pop_first(&mut self) -> Option<E>
        ensures { MatchOption result ((self.old ≡ []) × (self.new ≡ [])) (λ first. self.old ≡ first ∷ self.new) }
    {
        self.items.pop_front()
    }
}
