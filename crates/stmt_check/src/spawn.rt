ghost use Rattle.std.specs.Prelude.{◌≡◌, length, option_copied};
ghost use Rattle.stmt_check.specs.Bodies.{is_special};
ghost use Rattle.stmt_check.specs.Statements.{args_read, has_result, maybe_read, spawn_codes, spawn_read, spawned_read, begun_read, exactly};
ghost use Rattle.stmt_check.specs.Steps.{Goes};
ghost use Rattle.type_table.specs.Found.{Clears, told};

use crate::body::{Body, action_named};
use crate::state::State;
use epl_tree::{Expr, Exprs};
use epl_values::{Shape, Text};
use expr_check::arguments;
use span_text::Spot;
use type_table::{ActionHead, Fault, ParamHeads, Refusal, ResultHead};
use typed_program::{Stmt, TypedExpr, TypedExprs};

/// Whether an action has one of the two names that are called from outside.
pub(crate) fn is_special(name: &str) -> bool
    ensures { result ≡ is_special name.now }
{
    if name == "onload" {
        true
    } else {
        name == "ondie"
    }
}

fn has_result(head: &ResultHead) -> bool
    ensures { result ≡ has_result head.now }
{
    !matches!(head, ResultHead::Nothing)
}

fn may_spawn(spot: Spot, action: &ActionHead, args: &Exprs) -> Result<(), Refusal>
    ensures { Clears result (told spot (spawn_codes action.now (length args.now))) }
{
    if args.len() != action.params.len() {
        return Err(Refusal::Fault(Fault { code: 8, spot }));
    }
    if is_special(action.name.as_str()) || has_result(&action.result) {
        return Err(Refusal::Fault(Fault { code: 20, spot }));
    }
    Ok(())
}

impl Body<'_, '_> {
    pub(crate) fn spawned(
        &self,
        spot: Spot,
        name: &Text,
        args: &Exprs,
        to: &Option<Expr>,
        state: &State,
    ) -> Result<Stmt, Refusal>
        ensures { Goes (spawn_read self.now.table.now spot name.now args.now to.now) state.now state.now result }
    {
        let action = action_named(self.table, state.scope.monitor, name.as_str());
        self.started(spot, action, args, to, state)
    }

    fn started(
        &self,
        spot: Spot,
        action: Option<&ActionHead>,
        args: &Exprs,
        to: &Option<Expr>,
        state: &State,
    ) -> Result<Stmt, Refusal>
        ensures { Goes (spawned_read self.now.table.now spot (option_copied action.entry) args.now to.now) state.now state.now result }
    {
        match action {
            Some(action) => self.begun(spot, action, args, to, state),
            None => Err(Refusal::Fault(Fault { code: 6, spot })),
        }
    }

    fn begun(
        &self,
        spot: Spot,
        action: &ActionHead,
        args: &Exprs,
        to: &Option<Expr>,
        state: &State,
    ) -> Result<Stmt, Refusal>
        ensures { Goes (begun_read self.now.table.now spot action.now args.now to.now) state.now state.now result }
    {
        may_spawn(spot, action, args)?;
        let args = self.arguments(&action.params, args, state)?;
        let to = self.context(to, state)?;
        Ok(Stmt::Spawn(action.number, args, to))
    }

    fn context(&self, to: &Option<Expr>, state: &State) -> Result<Option<TypedExpr>, Refusal>
        ensures { Goes (maybe_read self.now.table.now (exactly Shape.Context) to.now) state.now state.now result }
    {
        let shape = Shape::Context;
        self.maybe(Some(&shape), to, state)
    }

    fn arguments(
        &self,
        params: &ParamHeads,
        args: &Exprs,
        state: &State,
    ) -> Result<TypedExprs, Refusal>
        ensures { Goes (args_read self.now.table.now params.now args.now) state.now state.now result }
    {
        arguments(self.alloc, self.table, &state.scope, params, args, false)
    }
}
