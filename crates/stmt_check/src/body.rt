ghost use Rattle.std.specs.Prelude.{◌≡◌, option_copied};
ghost use Rattle.expr_rules.specs.Asked.{asking, wish_of};
ghost use Rattle.stmt_check.specs.Bodies.{action_named};
ghost use Rattle.stmt_check.specs.Statements.{asked, exactly, wanted, for_place, reads, maybe_read};
ghost use Rattle.stmt_check.specs.Steps.{Goes};

use crate::state::State;
use epl_tree::Expr;
use epl_values::Shape;
use expr_check::judge;
use expr_rules::{Asked, Asks};
use std::alloc::Global;
use type_table::{ActionHead, Refusal, Table};
use typed_program::TypedExpr;

/// A body: how many actions there are with its own, how many callbacks it stands in, the shape of its result, and whether
/// it is a loop's.
#[derive(Clone, Copy)]
pub(crate) struct Body<'t, 'r> {
    pub alloc: Global,
    pub table: &'t Table,
    pub bodies: usize,
    pub callbacks: u16,
    pub result: Option<&'r Shape>,
    pub looped: bool,
}

impl Body<'_, '_> {
    pub(crate) fn read(
        &self,
        asked: Asked,
        tree: &Expr,
        state: &State,
    ) -> Result<TypedExpr, Refusal>
        ensures { Goes (reads self.now.table.now (asking asked.entry) tree.now) state.now state.now result }
    {
        judge(self.alloc, self.table, &state.scope, tree, asked)
    }

    pub(crate) fn exactly(
        &self,
        shape: &Shape,
        tree: &Expr,
        state: &State,
    ) -> Result<TypedExpr, Refusal>
        ensures { Goes (reads self.now.table.now (exactly shape.now) tree.now) state.now state.now result }
    {
        let asked = Asked {
            asks: Asks::Exactly(shape),
            path: false,
            astray: false,
        };
        self.read(asked, tree, state)
    }

    pub(crate) fn boolean(&self, tree: &Expr, state: &State) -> Result<TypedExpr, Refusal>
        ensures { Goes (reads self.now.table.now (exactly Shape.Boolean) tree.now) state.now state.now result }
    {
        let shape = Shape::Boolean;
        self.exactly(&shape, tree, state)
    }

    pub(crate) fn text(&self, tree: &Expr, state: &State) -> Result<TypedExpr, Refusal>
        ensures { Goes (reads self.now.table.now (exactly Shape.Text) tree.now) state.now state.now result }
    {
        let shape = Shape::Text;
        self.exactly(&shape, tree, state)
    }

    /// A value of a shape where it is known, and else any.
    pub(crate) fn wanted(
        &self,
        shape: Option<&Shape>,
        tree: &Expr,
        state: &State,
    ) -> Result<TypedExpr, Refusal>
        ensures { Goes (reads self.now.table.now (wanted (option_copied shape.entry)) tree.now) state.now state.now result }
    {
        match shape {
            Some(shape) => self.exactly(shape, tree, state),
            None => self.asked(Asks::Value, false, tree, state),
        }
    }

    /// A value of the shape of its place, which may not be known.
    pub(crate) fn for_place(
        &self,
        shape: Option<&Shape>,
        tree: &Expr,
        state: &State,
    ) -> Result<TypedExpr, Refusal>
        ensures { Goes (reads self.now.table.now (for_place (option_copied shape.entry)) tree.now) state.now state.now result }
    {
        match shape {
            Some(shape) => self.exactly(shape, tree, state),
            None => self.asked(Asks::Unknown, false, tree, state),
        }
    }

    pub(crate) fn asked(
        &self,
        asks: Asks,
        path: bool,
        tree: &Expr,
        state: &State,
    ) -> Result<TypedExpr, Refusal>
        ensures { Goes (reads self.now.table.now (asked (wish_of asks.entry) path) tree.now) state.now state.now result }
    {
        let asked = Asked {
            asks,
            path,
            astray: false,
        };
        self.read(asked, tree, state)
    }

    pub(crate) fn maybe(
        &self,
        shape: Option<&Shape>,
        tree: &Option<Expr>,
        state: &State,
    ) -> Result<Option<TypedExpr>, Refusal>
        ensures { Goes (maybe_read self.now.table.now (wanted (option_copied shape.entry)) tree.now) state.now state.now result }
    {
        match tree {
            Some(tree) => Ok(Some(self.wanted(shape, tree, state)?)),
            None => Ok(None),
        }
    }
}

/// The first action of a name in a monitor.
pub(crate) fn action_named<'t>(table: &'t Table, monitor: u16, name: &str) -> Option<&'t ActionHead>
    ensures { option_copied result ≡ action_named table.now monitor name.now }
{
    let head = table.monitors.as_slice().get(monitor as usize)?;
    let at = head.action_of(name)?;
    head.actions.as_slice().get(at)
}
