ghost use Rattle.std.specs.Prelude.{◌≡◌, length, not, option_copied};
ghost use Rattle.stmt_check.specs.Bodies.{around_of, when};
ghost use Rattle.stmt_check.specs.Statements.{print_read, log_read, route_read, send_read, call_read, assign_read, target_shape, return_codes, return_read, jump_read, control_codes, control, channel_read, monitor_read};
ghost use Rattle.stmt_check.specs.Steps.{Goes};
ghost use Rattle.type_table.specs.Found.{Clears, told};

use crate::body::Body;
use crate::state::State;
use epl_tree::{Expr, Exprs, Level, Place};
use epl_values::{Shape, Text};
use expr_check::{Target, place};
use expr_rules::Asks;
use span_text::Spot;
use type_table::{Fault, Refusal};
use typed_program::{Stmt, TypedExpr};

/// The shape of what is assigned, where it is known.
pub(crate) fn target_shape(to: &Target) -> Option<&Shape>
    ensures { option_copied result ≡ target_shape to.now }
{
    if to.known {
        Some(&to.place.shape)
    } else {
        None
    }
}

impl Body<'_, '_> {
    pub(crate) fn printed(&self, text: &Expr, state: &State) -> Result<Stmt, Refusal>
        ensures { Goes (print_read self.now.table.now text.now) state.now state.now result }
    {
        let text = self.text(text, state)?;
        Ok(Stmt::Print(text))
    }

    pub(crate) fn logged(&self, text: &Expr, level: Level, state: &State) -> Result<Stmt, Refusal>
        ensures { Goes (log_read self.now.table.now text.now level) state.now state.now result }
    {
        let text = self.text(text, state)?;
        Ok(Stmt::Log(text, level))
    }

    pub(crate) fn routed(&self, value: &Expr, state: &State) -> Result<Stmt, Refusal>
        ensures { Goes (route_read self.now.table.now value.now) state.now state.now result }
    {
        let value = self.asked(Asks::Event, true, value, state)?;
        Ok(Stmt::Route(value))
    }

    pub(crate) fn sent(&self, value: &Expr, to: &Expr, state: &State) -> Result<Stmt, Refusal>
        ensures { Goes (send_read self.now.table.now value.now to.now) state.now state.now result }
    {
        let value = self.asked(Asks::Event, true, value, state)?;
        let to = self.asked(Asks::Channel, false, to, state)?;
        Ok(Stmt::Send(value, to))
    }

    pub(crate) fn called(&self, tree: &Expr, state: &State) -> Result<Stmt, Refusal>
        ensures { Goes (call_read self.now.table.now tree.now) state.now state.now result }
    {
        let call = self.asked(Asks::Statement, false, tree, state)?;
        Ok(Stmt::Call(call))
    }

    pub(crate) fn assigned(&self, to: &Place, value: &Expr, state: &State) -> Result<Stmt, Refusal>
        ensures { Goes (assign_read self.now.table.now to.now value.now) state.now state.now result }
    {
        let to = place(self.alloc, self.table, &state.scope, to)?;
        let value = self.for_place(target_shape(&to), value, state)?;
        Ok(Stmt::Assign(to.place, value))
    }

    fn fits(&self, spot: Spot, value: &Option<Expr>) -> Result<(), Refusal>
        ensures { Clears result (told spot (return_codes (option_copied self.now.result) value.now)) }
    {
        match (self.result, value) {
            (None, None) => Ok(()),
            (Some(_), Some(_)) => Ok(()),
            _ => Err(Refusal::Fault(Fault { code: 16, spot })),
        }
    }

    pub(crate) fn returned(
        &self,
        spot: Spot,
        value: &Option<Expr>,
        state: &State,
    ) -> Result<Stmt, Refusal>
        ensures { Goes (return_read (around_of self.now) spot value.now) state.now state.now result }
    {
        self.fits(spot, value)?;
        let value = self.maybe(self.result, value, state)?;
        Ok(Stmt::Return(value))
    }

    fn in_loop(&self, spot: Spot) -> Result<(), Refusal>
        ensures { Clears result (told spot (when (not self.now.looped) 15)) }
    {
        if self.looped {
            return Ok(());
        }
        Err(Refusal::Fault(Fault { code: 15, spot }))
    }

    pub(crate) fn broken(&self, spot: Spot, state: &State) -> Result<Stmt, Refusal>
        ensures { Goes (jump_read (around_of self.now) spot Stmt.Break) state.now state.now result }
    {
        self.in_loop(spot)?;
        Ok(Stmt::Break)
    }

    pub(crate) fn continued(&self, spot: Spot, state: &State) -> Result<Stmt, Refusal>
        ensures { Goes (jump_read (around_of self.now) spot Stmt.Continue) state.now state.now result }
    {
        self.in_loop(spot)?;
        Ok(Stmt::Continue)
    }

    pub(crate) fn controlled(
        &self,
        spot: Spot,
        name: &Text,
        args: &Exprs,
        state: &State,
    ) -> Result<Stmt, Refusal>
        ensures { Goes (monitor_read self.now.table.now spot name.now args.now) state.now state.now result }
    {
        is_control(spot, name, args)?;
        self.channel(name, args.as_slice().first(), state)
    }

    fn channel(&self, name: &Text, arg: Option<&Expr>, state: &State) -> Result<Stmt, Refusal>
        ensures { Goes (channel_read self.now.table.now name.now (option_copied arg.entry)) state.now state.now result }
    {
        match arg {
            Some(tree) => {
                let channel = self.text(tree, state)?;
                Ok(control(name, channel))
            }
            None => Ok(Stmt::Die),
        }
    }
}

fn is_control(spot: Spot, name: &Text, args: &Exprs) -> Result<(), Refusal>
    ensures { Clears result (told spot (control_codes name.now (length args.now))) }
{
    let name = name.as_str();
    if name != "subscribe" && name != "unsubscribe" {
        return Err(Refusal::Fault(Fault { code: 6, spot }));
    }
    if args.len() != 1 {
        return Err(Refusal::Fault(Fault { code: 8, spot }));
    }
    Ok(())
}

fn control(name: &Text, channel: TypedExpr) -> Stmt
    ensures { result ≡ control name.now channel }
{
    if name.as_str() == "subscribe" {
        Stmt::Subscribe(channel)
    } else {
        Stmt::Unsubscribe(channel)
    }
}
