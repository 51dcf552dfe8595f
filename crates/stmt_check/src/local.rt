ghost use Rattle.std.specs.Prelude.{◌≡◌, take, OnOk};
ghost use Rattle.stmt_check.specs.Bodies.{counted, local_codes, local_read, name_read, with_local};
ghost use Rattle.stmt_check.specs.Statements.{declare_read, declare_as_read};
ghost use Rattle.stmt_check.specs.Steps.{Goes};
ghost use Rattle.type_table.specs.Found.{Clears, told};
ghost use Rattle.type_table.specs.Scopes.{cut_to};

use crate::body::Body;
use crate::number::known;
use crate::state::State;
use epl_tree::{Expr, Name, TypeExpr};
use epl_values::{Shape, Text, copy_shape};
use std::alloc::{AllocError, Global};
use type_table::{Fault, Refusal, Seen, SeenKind, Seens, shape_of, short};
use typed_program::Stmt;

fn may_declare(name: &Name, state: &State) -> Result<(), Refusal>
    ensures { Clears result (told name.now.spot (local_codes state.now name.now.text)) }
{
    let spot = name.spot;
    if state.scope.seen_of(name.text.as_str()).is_some() {
        return Err(Refusal::Fault(Fault { code: 1, spot }));
    }
    if state.whole >= 256 {
        return Err(Refusal::Fault(Fault { code: 4, spot }));
    }
    Ok(())
}

fn count(state: &mut State)
    ensures { state.new ≡ counted state.old }
{
    state.whole = short(state.whole as usize + 1);
}

/// The name of a new local, which is counted here.
pub(crate) fn new_name(name: &Name, state: &mut State) -> Result<(), Refusal>
    ensures { Goes (name_read name.now) state.old state.new result }
{
    may_declare(name, state)?;
    count(state);
    Ok(())
}

/// Adds a local, which is visible from here on.
fn add_local(
    alloc: Global,
    kind: SeenKind,
    name: &Text,
    shape: Option<Shape>,
    state: &mut State,
) -> Result<(), AllocError>
    ensures { OnOk result (state.new ≡ with_local kind name.now shape state.old) }
{
    let number = state.next;
    let local = known(alloc, &shape)?;
    let seen = Seen {
        name: Text::of(alloc, name.as_str())?,
        shape,
        kind,
        number,
    };
    state.scope.push(seen)?;
    state.locals.push(local)?;
    state.next = short(number as usize + 1);
    Ok(())
}

fn leave_names(names: &mut Seens, len: usize)
    ensures { names.new ≡ take len names.old }
{
    'last: while names.len() > len {
        names.pop();
    }
}

/// Leaves the names that were visible before, which were so many.
pub(crate) fn leave(state: &mut State, len: usize)
    ensures { state.new ≡ record state.old { scope = cut_to state.old.scope len } }
{
    leave_names(&mut state.scope.names, len);
}

impl Body<'_, '_> {
    /// The number of a new local, which is visible from here on.
    pub(crate) fn local(
        &self,
        kind: SeenKind,
        name: &Text,
        shape: Option<Shape>,
        state: &mut State,
    ) -> Result<u16, Refusal>
        ensures { Goes (local_read kind name.now shape) state.old state.new result }
    {
        let number = state.next;
        add_local(self.alloc, kind, name, shape, state)?;
        Ok(number)
    }

    pub(crate) fn declared(
        &self,
        written: &TypeExpr,
        name: &Name,
        state: &mut State,
    ) -> Result<Stmt, Refusal>
        ensures { Goes (declare_read self.now.table.now written.now name.now) state.old state.new result }
    {
        let shape = shape_of(self.alloc, self.table, written)?;
        new_name(name, state)?;
        let copy = copy_shape(self.alloc, &shape)?;
        let number = self.local(SeenKind::Local, &name.text, Some(copy), state)?;
        Ok(Stmt::Declare(number, shape))
    }

    pub(crate) fn declared_as(
        &self,
        written: &TypeExpr,
        name: &Name,
        value: &Expr,
        state: &mut State,
    ) -> Result<Stmt, Refusal>
        ensures { Goes (declare_as_read self.now.table.now written.now name.now value.now) state.old state.new result }
    {
        let shape = shape_of(self.alloc, self.table, written)?;
        new_name(name, state)?;
        let value = self.exactly(&shape, value, state)?;
        let number = self.local(SeenKind::Local, &name.text, Some(shape), state)?;
        Ok(Stmt::DeclareAs(number, value))
    }
}
