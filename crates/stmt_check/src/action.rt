ghost use Rattle.std.specs.Prelude.{◌≡◌, ◌++◌, ◌∷◌, ◌||◌, ◌&&◌, [], is_some, not, option_map, IfOk, OnOk};
ghost use Rattle.std.specs.List.{list_any};
ghost use Rattle.stmt_check.specs.Actions.{name_of, is_global, is_named, is_global_named, globals_before, actions_before, is_param_named, param_codes, param_read, params_found, action_codes, body_around, body_start, body_end, body_read, action_read};
ghost use Rattle.stmt_check.specs.Bodies.{around_of};
ghost use Rattle.stmt_check.specs.Steps.{Goes, optional, given};
ghost use Rattle.type_table.specs.Found.{Clears, Finds, told};
ghost use Rattle.type_table.specs.Table.{event_of};
ghost use Rattle.type_table.specs.Types.{type_found};

use crate::body::Body;
use crate::endings::ends_with_return;
use crate::made::Made;
use crate::spawn::is_special;
use crate::state::State;
use epl_tree::{ActionDecl, Member, Name, Param, Stmts, TypeExpr};
use epl_values::{Shape, Shapes};
use std::alloc::{AllocError, Global};
use std::mem;
use type_table::{Fault, Refusal, Scope, Table, shape_of, short};
use typed_program as typed;
use typed_program::{Action, Sites};

/// Reads the members of a monitor.
#[derive(Clone, Copy)]
pub(crate) struct Reader<'t> {
    pub alloc: Global,
    pub table: &'t Table,
    pub members: &'t [Member],
}

fn name_of(member: &Member) -> &str
    ensures { result.now ≡ name_of member.now }
{
    match member {
        Member::Global(global) => global.name.text.as_str(),
        Member::Action(action) => action.name.text.as_str(),
    }
}

#[tactic(auto, unfolding(crate::specs::Actions::is_global))]
fn is_global(member: &Member) -> bool
    ensures { result ≡ is_global member.now }
{
    match member {
        Member::Global(_) => true,
        Member::Action(_) => false,
    }
}

/// Whether an action with a result may end without one.
fn is_bare(has_result: bool, returns: bool) -> bool
    ensures { result ≡ (has_result && not returns) }
{
    has_result && !returns
}

fn any_named(members: &[Member], name: &str) -> bool
    ensures { result ≡ list_any (is_named name.now) members.now }
{
    members.iter().any(|m| name_of(m) == name)
}

fn any_global_named(members: &[Member], name: &str) -> bool
    ensures { result ≡ list_any (is_global_named name.now) members.now }
{
    members.iter().any(|m| is_global(m) && name_of(m) == name)
}

pub(crate) fn globals_before(members: &[Member]) -> usize
    ensures { result ≡ globals_before members.now }
{
    members.iter().filter(|m| is_global(m)).count()
}

fn actions_before(members: &[Member]) -> usize
    ensures { result ≡ actions_before members.now }
{
    members.iter().filter(|m| !is_global(m)).count()
}

fn any_param_named(params: &[Param], name: &str) -> bool
    ensures { result ≡ list_any (is_param_named name.now) params.now }
{
    params.iter().any(|p| p.name.text.as_str() == name)
}

impl<'t> Reader<'t> {
    /// Whether an earlier member or an event type has the name.
    pub(crate) fn is_taken(&self, before: &[Member], name: &str) -> bool
        ensures { result ≡ (list_any (is_named name.now) before.now || is_some (event_of self.now.table.now name.now)) }
    {
        any_named(before, name) || self.table.event_of(name).is_some()
    }

    fn may_take(&self, before: &[Param], name: &Name) -> Result<(), Refusal>
        ensures { Clears result (told name.now.spot (param_codes self.now.members.now before.now name.now.text)) }
    {
        let spot = name.spot;
        let text = name.text.as_str();
        if any_param_named(before, text) || any_global_named(self.members, text) {
            return Err(Refusal::Fault(Fault { code: 1, spot }));
        }
        if before.len() >= 64 {
            return Err(Refusal::Fault(Fault { code: 4, spot }));
        }
        Ok(())
    }

    fn param(&self, before: &[Param], param: &Param) -> Result<Shape, Refusal>
        ensures { Goes (param_read self.now.table.now self.now.members.now param.now) before.now (before.now ++ param.now ∷ []) result }
    {
        let shape = shape_of(self.alloc, self.table, &param.shape)?;
        self.may_take(before, &param.name)?;
        Ok(shape)
    }

    fn params(&self, params: &[Param]) -> Result<Shapes, Refusal>
        ensures { Finds result (params_found self.now.table.now self.now.members.now params.now) }
    {
        let mut shapes = Shapes::new(self.alloc);
        'params: for (at, param) in params.iter().enumerate() {
            shapes.push(self.param(&params[..at], param)?)?;
        }
        Ok(shapes)
    }

    fn result(&self, written: &Option<TypeExpr>, made: &Made) -> Result<Option<Shape>, Refusal>
        ensures { Goes (optional (option_map (λ t. given (type_found self.now.table.now t)) written.now)) made.now made.now result }
    {
        match written {
            Some(written) => Ok(Some(shape_of(self.alloc, self.table, written)?)),
            None => Ok(None),
        }
    }

    #[tactic(auto, unfolding(crate::specs::Actions::action_codes))]
    fn may_act(&self, before: &[Member], decl: &ActionDecl, made: &Made) -> Result<(), Refusal>
        ensures { Clears result (told decl.now.name.spot (action_codes self.now.table.now before.now decl.now made.now)) }
    {
        let spot = decl.name.spot;
        let name = decl.name.text.as_str();
        if self.is_taken(before, name) {
            return Err(Refusal::Fault(Fault { code: 1, spot }));
        }
        if actions_before(before) >= 256 || made.actions.len() + made.sites.len() >= 65535 {
            return Err(Refusal::Fault(Fault { code: 4, spot }));
        }
        if is_special(name) && (decl.params.len() != 0 || decl.result.is_some()) {
            return Err(Refusal::Fault(Fault { code: 5, spot }));
        }
        if is_bare(decl.result.is_some(), ends_with_return(&decl.body)) {
            return Err(Refusal::Fault(Fault { code: 16, spot }));
        }
        Ok(())
    }

    /// Where the body of an action begins. It takes the sites along.
    fn start(
        &self,
        before: &[Member],
        params: &Shapes,
        made: &mut Made,
    ) -> Result<State, AllocError>
        ensures ok { IfOk result (λ s. s ≡ body_start self.now.table.now before.now params.now made.old) }
        ensures rest { OnOk result (made.new ≡ record made.old { sites = [] }) }
    {
        let monitor = short(made.monitors.len());
        let action = short(actions_before(before));
        let scope = Scope::new(self.alloc, self.table, monitor, Some(action))?;
        let sites = mem::replace(&mut made.sites, Sites::new(self.alloc));
        Ok(State {
            scope,
            locals: Shapes::new(self.alloc),
            next: short(params.len()),
            whole: 0,
            sites,
        })
    }

    /// The body of an action with this result.
    fn around<'r>(&self, shape: &'r Option<Shape>, made: &Made) -> Body<'t, 'r>
        ensures { around_of result ≡ body_around self.now.table.now shape.now made.now }
    {
        Body {
            alloc: self.alloc,
            table: self.table,
            bodies: made.actions.len() + 1,
            callbacks: 0,
            result: shape.as_ref(),
            looped: false,
        }
    }

    fn body(
        &self,
        before: &[Member],
        trees: &Stmts,
        params: Shapes,
        shape: Option<Shape>,
        made: &mut Made,
    ) -> Result<(), Refusal>
        ensures { Goes (body_read self.now.table.now before.now trees.now params shape) made.old made.new result }
    {
        let mut state = self.start(before, &params, made)?;
        let body = self.around(&shape, made);
        let row = body.row(trees, &mut state)?;
        Ok(finish(params, shape, state, row, made)?)
    }

    pub(crate) fn action(
        &self,
        before: &[Member],
        decl: &ActionDecl,
        made: &mut Made,
    ) -> Result<(), Refusal>
        ensures { Goes (action_read self.now.table.now self.now.members.now before.now decl.now) made.old made.new result }
    {
        self.may_act(before, decl, made)?;
        let params = self.params(decl.params.as_slice())?;
        let shape = self.result(&decl.result, made)?;
        self.body(before, &decl.body, params, shape, made)
    }
}

/// Adds an action whose body was read.
fn finish(
    params: Shapes,
    shape: Option<Shape>,
    state: State,
    row: typed::Stmts,
    made: &mut Made,
) -> Result<(), AllocError>
    ensures { OnOk result (made.new ≡ (body_end params shape made.old (record { part = row; state = state })).state) }
{
    let action = Action {
        monitor: short(made.monitors.len()),
        params,
        result: shape,
        locals: state.locals,
        body: row,
    };
    made.sites = state.sites;
    made.actions.push(action)
}
