ghost use Rattle.std.specs.Prelude.{◌≡◌, ◌++◌, List, map, IfOk, Some};
ghost use Rattle.typed_program.specs.declared.expression.TypedExpr.{TypedExpr};
ghost use Rattle.body_meaning.specs.Acts.{enter};
ghost use Rattle.body_meaning.specs.Effects.{globals_then, spawn_there, spawn_to};
ghost use Rattle.body_meaning.specs.Expressions.{Place, meaning_of};
ghost use Rattle.body_meaning.specs.Runs.{all, all_behind};
ghost use Rattle.body_meaning.specs.Statements.{row, while_of, each, elements_of, done, returned, assign, place_moves, moves_in, listener_of, listen_at, spawned, is_next, turn_end, level_number};
ghost use Rattle.body_meaning.specs.Values.{items_of};
ghost use Rattle.value_steps.specs.Orderly.{IsOrderly, AreOrderly, AreOrderlyMoves};
ghost use Rattle.path_bases.specs.Locals.{values_in, frame_of, local_in};
ghost use Rattle.path_bases.specs.Tells.{Tells};
ghost use Rattle.expr_walker.specs.Means.{value_by, reach_by};
ghost use Rattle.stmt_walker.specs.Flows.{IsOrderlyFlow};
ghost use Rattle.stmt_walker.specs.Found.{ChangesAt};
ghost use Rattle.stmt_walker.specs.Means.{stmt_by};
ghost use Rattle.stmt_walker.specs.Singles.{effect_by, single_by};

use crate::changing::{ChangeIn, change_in};
use action_host::{Fault, Host};
use body_meaning::{Flow, Halt, Move};
use epl_values::{Items, Value, Values};
use expr_walker::Walker;
use lists::List;
use path_bases::{Gots, local};
use std::alloc::{AllocError, Global};
use std::marker::PhantomData;
use typed_program::{
    Level, Locals, Program, Site, Stmt, TypedExpr, TypedExprs, TypedPlace, TypedSuffix,
};
use value_rules::default_of;
use value_steps::{starting, taken_along, truth};
use variable_changes::{Change, change_variable, set_local};
use walk_rules::{
    Stop, listen, log, pay, pay_cost, print, route, send, spawn_here, spawn_there, subscribe,
    unsubscribe,
};

/// What a statement costs as it begins, but a block.
const STATEMENT_COST: u64 = 1;

/// What a turn of a `while` costs.
const TURN_COST: u64 = 1;

/// What a turn of a `for` costs.
const ELEMENT_COST: u64 = 1;

/// Walks the statements of a body, with a function for the calls in them.
#[derive(Drop)]
pub struct Body<'w, H, F> {
    pub alloc: Global,
    pub program: &'w Program,
    /// How many more calls may nest.
    pub depth: u16,
    pub call: F,
    pub host: PhantomData<H>,
}

impl<
    'w,
    H: Host,
    F: Fn(Global, &Program, u16, u16, Gots<'_>, &mut Values, &mut H) -> Result<Value, Stop> + Copy,
> Body<'w, H, F> {
    ghost use Rattle.expr_walker.specs.CallsBy.{CallsBy};

    // ---- expressions

    /// The walker over expressions, with the locals as they are.
    fn over<'s, 'x>(&'s self, locals: &'s Gots<'x>) -> Walker<'s, 'x, H, F>
        ensures program { result.program.now ≡ self.now.program.now }
        ensures depth { result.depth ≡ self.now.depth }
        ensures locals { result.locals.now ≡ locals.now }
        ensures call { result.call ≡ self.now.call }
    {
        Walker {
            alloc: self.alloc,
            program: self.program,
            depth: self.depth,
            locals,
            call: self.call,
            host: PhantomData,
        }
    }

    /// The value of an expression.
    fn value(
        &self,
        e: &TypedExpr,
        locals: &Gots<'_>,
        globals: &mut Values,
        host: &mut H,
    ) -> Result<Value, Stop>
        requires calls { CallsBy H.told self.now.program.now self.now.depth (F.pre self.now.call) (F.post self.now.call) }
        requires globals { AreOrderly globals.old }
        requires locals { AreOrderly (values_in locals.now) }
        ensures means { Tells (value_by self.now.program.now self.now.depth e.now) (H.told host.old) (frame_of globals.old locals.now) (H.told host.new) (frame_of globals.new locals.now) result }
        ensures kept { AreOrderly globals.new }
        ensures order { IfOk result IsOrderly }
    {
        self.over(locals).value(e, globals, host)
    }

    /// The values of several expressions, from left to right.
    fn values(
        &self,
        es: &TypedExprs,
        locals: &Gots<'_>,
        globals: &mut Values,
        host: &mut H,
    ) -> Result<Values, Stop>
        requires calls { CallsBy H.told self.now.program.now self.now.depth (F.pre self.now.call) (F.post self.now.call) }
        requires globals { AreOrderly globals.old }
        requires locals { AreOrderly (values_in locals.now) }
        ensures means { Tells (all (map (value_by self.now.program.now self.now.depth) es.now)) (H.told host.old) (frame_of globals.old locals.now) (H.told host.new) (frame_of globals.new locals.now) result }
        ensures kept { AreOrderly globals.new }
        ensures order { IfOk result AreOrderly }
    {
        self.over(locals).values(es.as_slice(), globals, host)
    }

    /// Further steps behind those that are known.
    fn steps_behind(
        &self,
        steps: &[TypedSuffix],
        before: List<Move>,
        locals: &Gots<'_>,
        globals: &mut Values,
        host: &mut H,
    ) -> Result<List<Move>, Stop>
        requires calls { CallsBy H.told self.now.program.now self.now.depth (F.pre self.now.call) (F.post self.now.call) }
        requires globals { AreOrderly globals.old }
        requires locals { AreOrderly (values_in locals.now) }
        requires order { AreOrderlyMoves before }
        ensures means { Tells (all_behind before (moves_in (map (reach_by self.now.program.now self.now.depth) steps.now))) (H.told host.old) (frame_of globals.old locals.now) (H.told host.new) (frame_of globals.new locals.now) result }
        ensures kept { AreOrderly globals.new }
        ensures order { IfOk result AreOrderlyMoves }
    {
        self.over(locals).steps_behind(steps, before, globals, host)
    }

    /// The steps of a place, each with its index or key.
    fn place_moves(
        &self,
        place: &TypedPlace,
        locals: &Gots<'_>,
        globals: &mut Values,
        host: &mut H,
    ) -> Result<List<Move>, Stop>
        requires calls { CallsBy H.told self.now.program.now self.now.depth (F.pre self.now.call) (F.post self.now.call) }
        requires globals { AreOrderly globals.old }
        requires locals { AreOrderly (values_in locals.now) }
        ensures means { Tells (all (place_moves self.now.program.now.types self.now.program.now.sites (enter self.now.program.now self.now.depth) place.now)) (H.told host.old) (frame_of globals.old locals.now) (H.told host.new) (frame_of globals.new locals.now) result }
        ensures kept { AreOrderly globals.new }
        ensures order { IfOk result AreOrderlyMoves }
    {
        let none = List::new(self.alloc);
        self.steps_behind(place.steps.as_slice(), none, locals, globals, host)
    }

    /// The steps of a path that is a place.
    fn root_moves(
        &self,
        path: &TypedExpr,
        locals: &Gots<'_>,
        globals: &mut Values,
        host: &mut H,
    ) -> Result<List<Move>, Stop>
        requires calls { CallsBy H.told self.now.program.now self.now.depth (F.pre self.now.call) (F.post self.now.call) }
        requires globals { AreOrderly globals.old }
        requires locals { AreOrderly (values_in locals.now) }
        ensures means { (p : Place) → (meaning_of self.now.program.now.types (enter self.now.program.now self.now.depth) path.now).place ≡ Some p → Tells (all p.moves) (H.told host.old) (frame_of globals.old locals.now) (H.told host.new) (frame_of globals.new locals.now) result }
        ensures kept { AreOrderly globals.new }
        ensures order { IfOk result AreOrderlyMoves }
    {
        self.over(locals).path_moves(path, globals, host)
    }

    /// The steps of a path that is a place, and then further steps.
    fn path_moves(
        &self,
        path: &TypedExpr,
        steps: &[TypedSuffix],
        locals: &Gots<'_>,
        globals: &mut Values,
        host: &mut H,
    ) -> Result<List<Move>, Stop>
        requires calls { CallsBy H.told self.now.program.now self.now.depth (F.pre self.now.call) (F.post self.now.call) }
        requires globals { AreOrderly globals.old }
        requires locals { AreOrderly (values_in locals.now) }
        ensures means { (p : Place) → (meaning_of self.now.program.now.types (enter self.now.program.now self.now.depth) path.now).place ≡ Some p → Tells (all (p.moves ++ moves_in (map (reach_by self.now.program.now self.now.depth) steps.now))) (H.told host.old) (frame_of globals.old locals.now) (H.told host.new) (frame_of globals.new locals.now) result }
        ensures kept { AreOrderly globals.new }
        ensures order { IfOk result AreOrderlyMoves }
    {
        let moves = self.root_moves(path, locals, globals, host)?;
        self.steps_behind(steps, moves, locals, globals, host)
    }

    // ---- statements

    /// Statements in a row, while they go on.
    #[cycle(walk)]
    pub fn row(
        &self,
        stmts: &[Stmt],
        locals: &mut Gots<'_>,
        globals: &mut Values,
        host: &mut H,
    ) -> Result<Flow, Stop>
        requires calls { CallsBy H.told self.now.program.now self.now.depth (F.pre self.now.call) (F.post self.now.call) }
        requires globals { AreOrderly globals.old }
        requires locals { AreOrderly (values_in locals.old) }
        ensures means { Tells (row (map (stmt_by self.now.program.now self.now.depth) stmts.now)) (H.told host.old) (frame_of globals.old locals.old) (H.told host.new) (frame_of globals.new locals.new) result }
        ensures globals_kept { AreOrderly globals.new }
        ensures locals_kept { AreOrderly (values_in locals.new) }
        ensures order { IfOk result IsOrderlyFlow }
    {
        for stmt in stmts {
            let flow = self.stmt(stmt, locals, globals, host)?;
            if !is_next(&flow) {
                return Ok(flow);
            }
        }
        Ok(Flow::Next)
    }

    /// A statement, which is charged as it begins, but a block.
    #[cycle(walk)]
    fn stmt(
        &self,
        stmt: &Stmt,
        locals: &mut Gots<'_>,
        globals: &mut Values,
        host: &mut H,
    ) -> Result<Flow, Stop>
        requires calls { CallsBy H.told self.now.program.now self.now.depth (F.pre self.now.call) (F.post self.now.call) }
        requires globals { AreOrderly globals.old }
        requires locals { AreOrderly (values_in locals.old) }
        ensures means { Tells (stmt_by self.now.program.now self.now.depth stmt.now) (H.told host.old) (frame_of globals.old locals.old) (H.told host.new) (frame_of globals.new locals.new) result }
        ensures globals_kept { AreOrderly globals.new }
        ensures locals_kept { AreOrderly (values_in locals.new) }
        ensures order { IfOk result IsOrderlyFlow }
    {
        match stmt {
            Stmt::Block(parts) => self.row(parts.as_slice(), locals, globals, host),
            Stmt::If(test, part, other) => {
                pay(host, STATEMENT_COST)?;
                let value = self.value(test, locals, globals, host)?;
                if truth(&value) {
                    self.stmt(part.get(), locals, globals, host)
                } else {
                    match other {
                        Some(other) => self.stmt(other.get(), locals, globals, host),
                        None => Ok(Flow::Next),
                    }
                }
            }
            Stmt::While(test, parts) => {
                pay(host, STATEMENT_COST)?;
                self.turns(parts.as_slice(), test, locals, globals, host)
            }
            Stmt::For(n, items, parts) => {
                pay(host, STATEMENT_COST)?;
                let items = self.elements(items, locals, globals, host)?;
                self.each(parts.as_slice(), *n, items, locals, globals, host)
            }
            stmt => {
                pay(host, STATEMENT_COST)?;
                self.single(stmt, locals, globals, host)
            }
        }
    }

    // ---- loops

    /// Turns of a `while`, each behind its charge, as long as the test holds.
    #[cycle(walk)]
    fn turns(
        &self,
        parts: &[Stmt],
        test: &TypedExpr,
        locals: &mut Gots<'_>,
        globals: &mut Values,
        host: &mut H,
    ) -> Result<Flow, Stop>
        requires calls { CallsBy H.told self.now.program.now self.now.depth (F.pre self.now.call) (F.post self.now.call) }
        requires globals { AreOrderly globals.old }
        requires locals { AreOrderly (values_in locals.old) }
        ensures means { Tells (while_of (value_by self.now.program.now self.now.depth test.now) (row (map (stmt_by self.now.program.now self.now.depth) parts.now))) (H.told host.old) (frame_of globals.old locals.old) (H.told host.new) (frame_of globals.new locals.new) result }
        ensures globals_kept { AreOrderly globals.new }
        ensures locals_kept { AreOrderly (values_in locals.new) }
        ensures order { IfOk result IsOrderlyFlow }
    {
        'turns: loop {
            pay(host, TURN_COST)?;
            let tested = self.value(test, locals, globals, host)?;
            if !truth(&tested) {
                return Ok(Flow::Next);
            }
            let flow = self.row(parts, locals, globals, host)?;
            if let Some(end) = after_turn(flow) {
                return Ok(end);
            }
        }
    }

    /// The elements of a sequence, which is charged.
    fn elements(
        &self,
        items: &TypedExpr,
        locals: &Gots<'_>,
        globals: &mut Values,
        host: &mut H,
    ) -> Result<Items, Stop>
        requires calls { CallsBy H.told self.now.program.now self.now.depth (F.pre self.now.call) (F.post self.now.call) }
        requires globals { AreOrderly globals.old }
        requires locals { AreOrderly (values_in locals.now) }
        ensures means { Tells (elements_of (value_by self.now.program.now self.now.depth items.now)) (H.told host.old) (frame_of globals.old locals.now) (H.told host.new) (frame_of globals.new locals.now) result }
        ensures globals_kept { AreOrderly globals.new }
        ensures order { IfOk result AreOrderly }
    {
        let value = self.value(items, locals, globals, host)?;
        pay_cost(host, &value)?;
        Ok(items_of(self.alloc, value))
    }

    /// Turns of a `for`, each behind its charge, with the next element in the loop variable.
    #[cycle(walk)]
    fn each(
        &self,
        parts: &[Stmt],
        n: u16,
        mut items: Items,
        locals: &mut Gots<'_>,
        globals: &mut Values,
        host: &mut H,
    ) -> Result<Flow, Stop>
        requires calls { CallsBy H.told self.now.program.now self.now.depth (F.pre self.now.call) (F.post self.now.call) }
        requires globals { AreOrderly globals.old }
        requires locals { AreOrderly (values_in locals.old) }
        requires order { AreOrderly items }
        ensures means { Tells (each n items (row (map (stmt_by self.now.program.now self.now.depth) parts.now))) (H.told host.old) (frame_of globals.old locals.old) (H.told host.new) (frame_of globals.new locals.new) result }
        ensures globals_kept { AreOrderly globals.new }
        ensures locals_kept { AreOrderly (values_in locals.new) }
        ensures order { IfOk result IsOrderlyFlow }
    {
        let count = items.len();
        for index in 0..count {
            let value = items.set(index, Value::NoContext);
            pay(host, ELEMENT_COST)?;
            set_local(locals, n, value);
            let flow = self.row(parts, locals, globals, host)?;
            if let Some(end) = after_turn(flow) {
                return Ok(end);
            }
        }
        Ok(Flow::Next)
    }

    // ---- single statements

    /// A statement without parts that are statements, behind its charge.
    fn single(
        &self,
        stmt: &Stmt,
        locals: &mut Gots<'_>,
        globals: &mut Values,
        host: &mut H,
    ) -> Result<Flow, Stop>
        requires calls { CallsBy H.told self.now.program.now self.now.depth (F.pre self.now.call) (F.post self.now.call) }
        requires globals { AreOrderly globals.old }
        requires locals { AreOrderly (values_in locals.old) }
        ensures means { Tells (single_by self.now.program.now self.now.depth stmt.now) (H.told host.old) (frame_of globals.old locals.old) (H.told host.new) (frame_of globals.new locals.new) result }
        ensures globals_kept { AreOrderly globals.new }
        ensures locals_kept { AreOrderly (values_in locals.new) }
        ensures order { IfOk result IsOrderlyFlow }
    {
        match stmt {
            Stmt::On(site) => {
                let _listener = self.listener(*site, locals, globals, host)?;
                Ok(Flow::Next)
            }
            Stmt::Declare(n, shape) => {
                let value = default_of(self.alloc, shape, &self.program.types)?;
                set_local(locals, *n, value);
                Ok(Flow::Next)
            }
            Stmt::DeclareAs(n, e) => {
                let value = self.value(e, locals, globals, host)?;
                set_local(locals, *n, value);
                Ok(Flow::Next)
            }
            Stmt::DeclareOn(n, site) => {
                let value = self.listener(*site, locals, globals, host)?;
                set_local(locals, *n, value);
                Ok(Flow::Next)
            }
            Stmt::Assign(place, e) => self.assign(place, e, locals, globals, host),
            Stmt::AssignOn(place, site) => self.assign_on(place, *site, locals, globals, host),
            Stmt::Break => Ok(Flow::Broke),
            Stmt::Continue => Ok(Flow::Continued),
            Stmt::Return(e) => self.returned(e, locals, globals, host),
            Stmt::Die => Err(Stop::Halted(Halt::Died)),
            Stmt::Call(e) => self.run(e, locals, globals, host),
            stmt => {
                self.effect(stmt, locals, globals, host)?;
                Ok(Flow::Next)
            }
        }
    }

    fn returned(
        &self,
        e: &Option<TypedExpr>,
        locals: &Gots<'_>,
        globals: &mut Values,
        host: &mut H,
    ) -> Result<Flow, Stop>
        requires calls { CallsBy H.told self.now.program.now self.now.depth (F.pre self.now.call) (F.post self.now.call) }
        requires globals { AreOrderly globals.old }
        requires locals { AreOrderly (values_in locals.now) }
        ensures means { Tells (returned self.now.program.now.types self.now.program.now.sites (enter self.now.program.now self.now.depth) e.now) (H.told host.old) (frame_of globals.old locals.now) (H.told host.new) (frame_of globals.new locals.now) result }
        ensures globals_kept { AreOrderly globals.new }
        ensures order { IfOk result IsOrderlyFlow }
    {
        match e {
            Some(e) => {
                let value = self.value(e, locals, globals, host)?;
                Ok(Flow::Returned(Some(value)))
            }
            None => Ok(Flow::Returned(None)),
        }
    }

    /// A place, and then what is stored there.
    fn assign(
        &self,
        place: &TypedPlace,
        e: &TypedExpr,
        locals: &mut Gots<'_>,
        globals: &mut Values,
        host: &mut H,
    ) -> Result<Flow, Stop>
        requires calls { CallsBy H.told self.now.program.now self.now.depth (F.pre self.now.call) (F.post self.now.call) }
        requires globals { AreOrderly globals.old }
        requires locals { AreOrderly (values_in locals.old) }
        ensures means { Tells (assign place.now (place_moves self.now.program.now.types self.now.program.now.sites (enter self.now.program.now self.now.depth) place.now) (value_by self.now.program.now self.now.depth e.now)) (H.told host.old) (frame_of globals.old locals.old) (H.told host.new) (frame_of globals.new locals.new) result }
        ensures globals_kept { AreOrderly globals.new }
        ensures locals_kept { AreOrderly (values_in locals.new) }
        ensures order { IfOk result IsOrderlyFlow }
    {
        let to = self.place_moves(place, locals, globals, host)?;
        let stored = self.value(e, locals, globals, host)?;
        let done = Change::Store(stored);
        change_variable(self.alloc, place.variable, locals, globals, to, done)?;
        Ok(Flow::Next)
    }

    fn assign_on(
        &self,
        place: &TypedPlace,
        site: u16,
        locals: &mut Gots<'_>,
        globals: &mut Values,
        host: &mut H,
    ) -> Result<Flow, Stop>
        requires calls { CallsBy H.told self.now.program.now self.now.depth (F.pre self.now.call) (F.post self.now.call) }
        requires globals { AreOrderly globals.old }
        requires locals { AreOrderly (values_in locals.old) }
        ensures means { Tells (assign place.now (place_moves self.now.program.now.types self.now.program.now.sites (enter self.now.program.now self.now.depth) place.now) (listener_of self.now.program.now.types self.now.program.now.sites (enter self.now.program.now self.now.depth) site)) (H.told host.old) (frame_of globals.old locals.old) (H.told host.new) (frame_of globals.new locals.new) result }
        ensures globals_kept { AreOrderly globals.new }
        ensures locals_kept { AreOrderly (values_in locals.new) }
        ensures order { IfOk result IsOrderlyFlow }
    {
        let moves = self.place_moves(place, locals, globals, host)?;
        let value = self.listener(site, locals, globals, host)?;
        let done = Change::Store(value);
        change_variable(self.alloc, place.variable, locals, globals, moves, done)?;
        Ok(Flow::Next)
    }

    // ---- listeners

    /// A listener of a site: its operands, and what its callback takes along.
    fn listener(
        &self,
        number: u16,
        locals: &Gots<'_>,
        globals: &mut Values,
        host: &mut H,
    ) -> Result<Value, Stop>
        requires calls { CallsBy H.told self.now.program.now self.now.depth (F.pre self.now.call) (F.post self.now.call) }
        requires globals { AreOrderly globals.old }
        requires locals { AreOrderly (values_in locals.now) }
        ensures means { Tells (listener_of self.now.program.now.types self.now.program.now.sites (enter self.now.program.now self.now.depth) number) (H.told host.old) (frame_of globals.old locals.now) (H.told host.new) (frame_of globals.new locals.now) result }
        ensures globals_kept { AreOrderly globals.new }
        ensures order { IfOk result IsOrderly }
    {
        match self.program.sites.as_slice().get(number as usize) {
            Some(site) => self.listen_at(number, site, locals, globals, host),
            None => Ok(Value::NoContext),
        }
    }

    fn listen_at(
        &self,
        number: u16,
        site: &Site,
        locals: &Gots<'_>,
        globals: &mut Values,
        host: &mut H,
    ) -> Result<Value, Stop>
        requires calls { CallsBy H.told self.now.program.now self.now.depth (F.pre self.now.call) (F.post self.now.call) }
        requires globals { AreOrderly globals.old }
        requires locals { AreOrderly (values_in locals.now) }
        ensures means { Tells (listen_at self.now.program.now.types self.now.program.now.sites (enter self.now.program.now self.now.depth) number (Some site.now)) (H.told host.old) (frame_of globals.old locals.now) (H.told host.new) (frame_of globals.new locals.now) result }
        ensures globals_kept { AreOrderly globals.new }
        ensures order { IfOk result IsOrderly }
    {
        let operands = self.values(&site.operands, locals, globals, host)?;
        let captured = captured(self.alloc, &site.captured, locals)?;
        let leaves = starting(&site.term);
        listen(host, number, &site.term, leaves, operands, captured)
    }

    // ---- effects

    fn effect(
        &self,
        stmt: &Stmt,
        locals: &Gots<'_>,
        globals: &mut Values,
        host: &mut H,
    ) -> Result<Value, Stop>
        requires calls { CallsBy H.told self.now.program.now self.now.depth (F.pre self.now.call) (F.post self.now.call) }
        requires globals { AreOrderly globals.old }
        requires locals { AreOrderly (values_in locals.now) }
        ensures means { Tells (effect_by self.now.program.now self.now.depth stmt.now) (H.told host.old) (frame_of globals.old locals.now) (H.told host.new) (frame_of globals.new locals.now) result }
        ensures globals_kept { AreOrderly globals.new }
    {
        match stmt {
            Stmt::Print(text) => {
                let value = self.value(text, locals, globals, host)?;
                print(self.alloc, host, value)
            }
            Stmt::Log(text, level) => {
                let value = self.value(text, locals, globals, host)?;
                log(self.alloc, host, level_number(*level), value)
            }
            Stmt::Route(e) => {
                let value = self.value(e, locals, globals, host)?;
                route(host, value)
            }
            Stmt::Send(e, to) => {
                let value = self.value(e, locals, globals, host)?;
                let to = self.value(to, locals, globals, host)?;
                send(host, value, to)
            }
            Stmt::Spawn(n, arguments, to) => self.spawn(*n, arguments, to, locals, globals, host),
            Stmt::Subscribe(channel) => {
                let value = self.value(channel, locals, globals, host)?;
                subscribe(self.alloc, host, value)
            }
            Stmt::Unsubscribe(channel) => {
                let value = self.value(channel, locals, globals, host)?;
                unsubscribe(self.alloc, host, value)
            }
            _ => Ok(Value::NoContext),
        }
    }

    fn spawn(
        &self,
        action: u16,
        arguments: &TypedExprs,
        to: &Option<TypedExpr>,
        locals: &Gots<'_>,
        globals: &mut Values,
        host: &mut H,
    ) -> Result<Value, Stop>
        requires calls { CallsBy H.told self.now.program.now self.now.depth (F.pre self.now.call) (F.post self.now.call) }
        requires globals { AreOrderly globals.old }
        requires locals { AreOrderly (values_in locals.now) }
        ensures means { Tells (spawned self.now.program.now.types self.now.program.now.sites (enter self.now.program.now self.now.depth) action arguments.now to.now) (H.told host.old) (frame_of globals.old locals.now) (H.told host.new) (frame_of globals.new locals.now) result }
        ensures globals_kept { AreOrderly globals.new }
    {
        let values = self.values(arguments, locals, globals, host)?;
        match to {
            Some(e) => {
                let to = self.value(e, locals, globals, host)?;
                spawn_to(self.alloc, host, action, &values, &to, globals)
            }
            None => {
                let along = taken_along(self.alloc, &values, globals)?;
                spawn_here(host, action, &values, globals, along)
            }
        }
    }

    // ---- calls as statements

    /// An expression as a statement: a change of a variable in place, or its value, which is dropped.
    fn run(
        &self,
        e: &TypedExpr,
        locals: &mut Gots<'_>,
        globals: &mut Values,
        host: &mut H,
    ) -> Result<Flow, Stop>
        requires calls { CallsBy H.told self.now.program.now self.now.depth (F.pre self.now.call) (F.post self.now.call) }
        requires globals { AreOrderly globals.old }
        requires locals { AreOrderly (values_in locals.old) }
        ensures means { Tells (done (meaning_of self.now.program.now.types (enter self.now.program.now self.now.depth) e.now).run) (H.told host.old) (frame_of globals.old locals.old) (H.told host.new) (frame_of globals.new locals.new) result }
        ensures globals_kept { AreOrderly globals.new }
        ensures locals_kept { AreOrderly (values_in locals.new) }
        ensures order { IfOk result IsOrderlyFlow }
    {
        match change_in(e) {
            Some(change) => self.change(change, locals, globals, host),
            None => {
                let _value = self.value(e, locals, globals, host)?;
                Ok(Flow::Next)
            }
        }
    }

    /// The indices and keys of the path, then the arguments, and then the path is followed.
    fn change(
        &self,
        to: ChangeIn<'_>,
        locals: &mut Gots<'_>,
        globals: &mut Values,
        host: &mut H,
    ) -> Result<Flow, Stop>
        requires calls { CallsBy H.told self.now.program.now self.now.depth (F.pre self.now.call) (F.post self.now.call) }
        requires globals { AreOrderly globals.old }
        requires locals { AreOrderly (values_in locals.old) }
        ensures means { (e : TypedExpr) → ChangesAt self.now.program.now.types (enter self.now.program.now self.now.depth) e to.entry → Tells (done (meaning_of self.now.program.now.types (enter self.now.program.now self.now.depth) e).run) (H.told host.old) (frame_of globals.old locals.old) (H.told host.new) (frame_of globals.new locals.new) result }
        ensures globals_kept { AreOrderly globals.new }
        ensures locals_kept { AreOrderly (values_in locals.new) }
        ensures order { IfOk result IsOrderlyFlow }
    {
        let moves = self.path_moves(&*to.path, &*to.steps, locals, globals, host)?;
        let arguments = self.values(&*to.arguments, locals, globals, host)?;
        let done = Change::Call(to.method, arguments);
        change_variable(self.alloc, to.variable, locals, globals, moves, done)?;
        Ok(Flow::Next)
    }
}

/// A new instance in the context of a value, which ends where it is none.
fn spawn_to<H: Host>(
    alloc: Global,
    host: &mut H,
    action: u16,
    arguments: &Values,
    to: &Value,
    globals: &Values,
) -> Result<Value, Stop>
    requires arguments { AreOrderly arguments.now }
    requires globals { AreOrderly globals.now }
    ensures { (locals : List Value) → Tells (spawn_to action arguments.now to.now) (H.told host.old) (record { globals = globals.now; locals = locals }) (H.told host.new) (record { globals = globals.now; locals = locals }) result }
{
    match to {
        Value::Context(slot) => spawn_at(alloc, host, action, arguments, *slot, globals),
        _ => Err(Stop::Halted(Halt::Failed(Fault::NoContext))),
    }
}

/// A new instance in the context of this slot.
fn spawn_at<H: Host>(
    alloc: Global,
    host: &mut H,
    action: u16,
    arguments: &Values,
    slot: u8,
    globals: &Values,
) -> Result<Value, Stop>
    requires arguments { AreOrderly arguments.now }
    requires globals { AreOrderly globals.now }
    ensures { (locals : List Value) → Tells (globals_then (spawn_there action arguments.now slot)) (H.told host.old) (record { globals = globals.now; locals = locals }) (H.told host.new) (record { globals = globals.now; locals = locals }) result }
{
    let along = taken_along(alloc, arguments, globals)?;
    spawn_there(host, action, arguments, slot, globals, along)
}

/// The values of the names that a callback takes along.
fn captured(alloc: Global, names: &Locals, locals: &Gots<'_>) -> Result<Values, AllocError>
    ensures { IfOk result (λ values. values ≡ map (λ name. local_in locals.now name.number) names.now) }
{
    let mut values = List::new(alloc);
    for name in names.as_slice() {
        let value = local(alloc, locals, name.number)?;
        values.push(value)?;
    }
    Ok(values)
}

fn is_next(flow: &Flow) -> bool
    ensures { result ≡ is_next flow.now }
{
    matches!(flow, Flow::Next)
}

/// How a loop ends after a turn, if it does.
fn after_turn(flow: Flow) -> Option<Flow>
    ensures { result ≡ turn_end flow }
{
    match flow {
        Flow::Next => None,
        Flow::Continued => None,
        Flow::Broke => Some(Flow::Next),
        Flow::Returned(value) => Some(Flow::Returned(value)),
    }
}

/// The elements of a sequence; another value has none.
fn items_of(alloc: Global, value: Value) -> Items
    ensures { result ≡ items_of value }
{
    match value {
        Value::Sequence(items) => items,
        _ => Items::new(alloc),
    }
}

fn level_number(level: Level) -> u8
    ensures { result ≡ level_number level }
{
    match level {
        Level::Crit => 0,
        Level::Fatal => 1,
        Level::Error => 2,
        Level::Warn => 3,
        Level::Info => 4,
        Level::Debug => 5,
        Level::Trace => 6,
    }
}
