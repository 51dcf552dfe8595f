ghost use Rattle.std.specs.Prelude.{◌≡◌, ◌++◌, ◌&&◌, [], length, map, drop, not, IfOk, OnOk};
ghost use Rattle.std.specs.List.{insert};
ghost use Rattle.stmt_check.specs.Bodies.{around_of, in_callback, in_loop, captured_in, place_among, outer_seen, outer_kind, is_global, bound_seen, bound_in, callback_scope, callback_start, local_of, site_of, site_number};
ghost use Rattle.stmt_check.specs.Captures.{stmt_names};
ghost use Rattle.stmt_check.specs.Statements.{on_codes};
ghost use Rattle.type_table.specs.Found.{Clears, told};

use crate::body::Body;
use crate::captures::stmt_names;
use crate::number::known;
use crate::state::State;
use epl_tree::{EventExpr, Stmt};
use epl_values::{Shapes, Text};
use listener_check::inner_scope;
use span_text::Spot;
use std::alloc::{AllocError, Global};
use std::mem;
use type_table::{Fault, Refusal, Scope, Seen, SeenKind, Seens, copy_seen, short};
use typed_program as typed;
use typed_program::{Local, Locals, Site, Sites, TypedTerm};

/// A callback that is being read: its event expression, the captured names, the place of its site, and what goes through it.
#[derive(Drop)]
pub(crate) struct Opened {
    pub term: TypedTerm,
    pub captured: Seens,
    pub at: usize,
    pub state: State,
}

fn is_global(kind: SeenKind) -> bool
    ensures { result ≡ is_global kind }
{
    matches!(kind, SeenKind::Global)
}

fn outer_kind(kind: SeenKind) -> SeenKind
    ensures { result ≡ outer_kind kind }
{
    match kind {
        SeenKind::Bound => SeenKind::Bound,
        SeenKind::Local => SeenKind::OuterLocal,
        SeenKind::OuterLocal => SeenKind::OuterLocal,
        _ => SeenKind::OuterFixed,
    }
}

fn place_among(captured: &[Seen], number: u16) -> usize
    ensures { result ≡ place_among captured.now number }
{
    captured.iter().filter(|c| c.number < number).count()
}

#[tactic(auto, unfolding(crate::specs::Bodies::outer_seen))]
fn outer_seen(alloc: Global, captured: &[Seen], seen: &Seen) -> Result<Seen, AllocError>
    ensures { IfOk result (λ s. s ≡ outer_seen captured.now seen.now) }
{
    let mut copy = copy_seen(alloc, seen)?;
    if is_global(seen.kind) {
        return Ok(copy);
    }
    copy.kind = outer_kind(seen.kind);
    copy.number = short(place_among(captured, seen.number));
    Ok(copy)
}

fn bound_seen(alloc: Global, captured: &[Seen], seen: &Seen) -> Result<Seen, AllocError>
    ensures { IfOk result (λ s. s ≡ bound_seen captured.now seen.now) }
{
    let mut copy = copy_seen(alloc, seen)?;
    copy.number = short(captured.len() + seen.number as usize);
    Ok(copy)
}

fn is_captured(callback: &Stmt, seen: &Seen) -> bool
    ensures { result ≡ (not (is_global seen.now.kind) && stmt_names callback.now seen.now.name) }
{
    !is_global(seen.kind) && stmt_names(callback, seen.name.as_str())
}

fn captured(alloc: Global, callback: &Stmt, names: &[Seen]) -> Result<Seens, AllocError>
    ensures { IfOk result (λ s. s ≡ captured_in (stmt_names callback.now) names.now) }
{
    let mut captured = Seens::new(alloc);
    'names: for seen in names {
        if is_captured(callback, seen) {
            captured.push(copy_seen(alloc, seen)?)?;
        }
    }
    Ok(captured)
}

fn outer_names(alloc: Global, captured: &[Seen], names: &[Seen]) -> Result<Seens, AllocError>
    ensures { IfOk result (λ s. s ≡ map (outer_seen captured.now) names.now) }
{
    let mut outer = Seens::new(alloc);
    'names: for seen in names {
        outer.push(outer_seen(alloc, captured, seen)?)?;
    }
    Ok(outer)
}

fn with_bound(
    alloc: Global,
    captured: &[Seen],
    outer: Seens,
    bound: &[Seen],
) -> Result<Seens, AllocError>
    ensures { IfOk result (λ s. s ≡ outer ++ map (bound_seen captured.now) bound.now) }
{
    let mut names = outer;
    'names: for seen in bound {
        names.push(bound_seen(alloc, captured, seen)?)?;
    }
    Ok(names)
}

fn callback_scope(
    alloc: Global,
    scope: &Scope,
    captured: &[Seen],
    bound: &[Seen],
) -> Result<Scope, AllocError>
    ensures { IfOk result (λ s. s ≡ callback_scope scope.now captured.now bound.now) }
{
    let outer = outer_names(alloc, captured, scope.names.as_slice())?;
    let names = with_bound(alloc, captured, outer, bound)?;
    Ok(Scope {
        monitor: scope.monitor,
        actions: scope.actions,
        names,
    })
}

fn behind(names: &[Seen], len: usize) -> &[Seen]
    ensures { result.now ≡ drop len names.now }
{
    let from = if len <= names.len() { len } else { names.len() };
    &names[from..]
}

/// Where a callback begins. It takes the sites along.
fn start(
    alloc: Global,
    captured: &[Seen],
    bound: &[Seen],
    state: &mut State,
) -> Result<State, AllocError>
    ensures ok { IfOk result (λ s. s ≡ callback_start captured.now bound.now state.old) }
    ensures rest { OnOk result (state.new ≡ record state.old { sites = [] }) }
{
    let scope = callback_scope(alloc, &state.scope, captured, bound)?;
    let sites = mem::replace(&mut state.sites, Sites::new(alloc));
    Ok(State {
        scope,
        locals: Shapes::new(alloc),
        next: short(captured.len() + bound.len()),
        whole: state.whole,
        sites,
    })
}

fn local_of(alloc: Global, seen: &Seen) -> Result<Local, AllocError>
    ensures { IfOk result (λ l. l ≡ local_of seen.now) }
{
    Ok(Local {
        number: seen.number,
        shape: known(alloc, &seen.shape)?,
    })
}

fn locals_of(alloc: Global, captured: &[Seen]) -> Result<Locals, AllocError>
    ensures { IfOk result (λ l. l ≡ map local_of captured.now) }
{
    let mut locals = Locals::new(alloc);
    'names: for seen in captured {
        locals.push(local_of(alloc, seen)?)?;
    }
    Ok(locals)
}

/// Puts a site at its number, before those of its callback.
fn place_site(sites: &mut Sites, at: usize, site: Site) -> Result<(), AllocError>
    ensures { OnOk result (sites.new ≡ insert sites.old at site) }
{
    let at = if at <= sites.len() { at } else { sites.len() };
    sites.insert(at, site)
}

/// Adds the site of a callback that was read.
pub(crate) fn close(
    alloc: Global,
    opened: Opened,
    body: typed::Stmt,
    state: &mut State,
) -> Result<(), AllocError>
    ensures { OnOk result (state.new ≡ record state.old { whole = opened.state.whole; sites = insert opened.state.sites opened.at (site_of opened.term opened.captured state.old (record { part = body; state = opened.state })) }) }
{
    let Opened {
        term,
        captured,
        at,
        state: inner,
    } = opened;
    let mut row = typed::Stmts::new(alloc);
    row.push(body)?;
    let captured = locals_of(alloc, captured.as_slice())?;
    let site = Site {
        monitor: state.scope.monitor,
        term: term.term,
        operands: term.operands,
        captured,
        bound: term.bound,
        locals: inner.locals,
        body: row,
    };
    state.whole = inner.whole;
    state.sites = inner.sites;
    place_site(&mut state.sites, at, site)
}

impl<'t, 'r> Body<'t, 'r> {
    /// The same body inside a loop.
    pub(crate) fn inside(&self) -> Body<'t, 'r>
        ensures { around_of result ≡ in_loop (around_of self.now) }
    {
        Body {
            alloc: self.alloc,
            table: self.table,
            bodies: self.bodies,
            callbacks: self.callbacks,
            result: self.result,
            looped: true,
        }
    }

    /// The body of a callback.
    pub(crate) fn called_back(&self) -> Body<'t, 'r>
        ensures { around_of result ≡ in_callback (around_of self.now) }
    {
        Body {
            alloc: self.alloc,
            table: self.table,
            bodies: self.bodies,
            callbacks: short(self.callbacks as usize + 1),
            result: None,
            looped: false,
        }
    }

    /// The number of the next site.
    pub(crate) fn site_number(&self, state: &State) -> u16
        ensures { result ≡ site_number (around_of self.now) state.now }
    {
        short(self.callbacks as usize + state.sites.len())
    }

    pub(crate) fn may_listen(&self, spot: Spot, takes: bool, state: &State) -> Result<(), Refusal>
        ensures { Clears result (told spot (on_codes (around_of self.now) takes state.now)) }
    {
        let bodies = self.bodies.saturating_add(self.callbacks as usize);
        let is_past = bodies.saturating_add(state.sites.len()) >= 65535;
        if is_past || state.scope.names.len() >= 65000 {
            return Err(Refusal::Fault(Fault { code: 4, spot }));
        }
        if !takes {
            return Err(Refusal::Fault(Fault { code: 9, spot }));
        }
        Ok(())
    }

    /// Begins a callback. It takes the sites along.
    pub(crate) fn opened(
        &self,
        callback: &Stmt,
        event: &EventExpr,
        term: TypedTerm,
        state: &mut State,
    ) -> Result<Opened, AllocError>
        ensures term { IfOk result (λ o. o.term ≡ term) }
        ensures at { IfOk result (λ o. o.at ≡ length state.old.sites) }
        ensures captured { IfOk result (λ o. o.captured ≡ captured_in (stmt_names callback.now) state.old.scope.names) }
        ensures state { IfOk result (λ o. o.state ≡ callback_start (captured_in (stmt_names callback.now) state.old.scope.names) (bound_in self.now.table.now state.old.scope event.now) state.old) }
        ensures rest { OnOk result (state.new ≡ record state.old { sites = [] }) }
    {
        let captured = captured(self.alloc, callback, state.scope.names.as_slice())?;
        let inner = inner_scope(self.alloc, self.table, &state.scope, event)?;
        let at = state.sites.len();
        let bound = behind(inner.names.as_slice(), state.scope.names.len());
        let start = start(self.alloc, captured.as_slice(), bound, state)?;
        Ok(Opened {
            term,
            captured,
            at,
            state: start,
        })
    }
}
