ghost use Rattle.std.specs.Prelude.{◌≡◌, map, option_map, option_copied, IfOk};
ghost use Rattle.stmt_check.specs.Bodies.{around_of, scoped};
ghost use Rattle.stmt_check.specs.Statements.{part_of, on_part_of, block_read, on_read, callback_read, row_read, other_read, while_read, for_read, declare_on_read, assign_on_read, element_of, takes_listener, is_listener};
ghost use Rattle.stmt_check.specs.Steps.{Goes};
ghost use Rattle.typed_program.specs.declared.statement.Stmt.TheVariants.{If};

use crate::body::Body;
use crate::callback::close;
use crate::command::target_shape;
use crate::local::{leave, new_name};
use crate::state::State;
use epl_tree::{Boxed, EventExpr, Expr, Listening, Name, Place, Stmt, StmtNode, Stmts, TypeExpr};
use epl_values::{Shape, copy_shape};
use expr_check::place;
use expr_rules::Asks;
use listener_check::term;
use std::alloc::{AllocError, Global};
use type_table::{Refusal, SeenKind, shape_of};
use typed_program as typed;
use typed_program::{TypedExpr, TypedTerm};

#[tactic(auto, unfolding(crate::specs::Statements::is_listener))]
fn is_listener(shape: &Shape) -> bool
    ensures { result ≡ is_listener shape.now }
{
    matches!(shape, Shape::Listener)
}

fn takes_listener(shape: Option<&Shape>) -> bool
    ensures { result ≡ takes_listener (option_copied shape.entry) }
{
    match shape {
        Some(shape) => is_listener(shape),
        None => true,
    }
}

#[tactic(auto, unfolding(crate::specs::Statements::element_of))]
fn element_of(alloc: Global, shape: &Option<Shape>) -> Result<Option<Shape>, AllocError>
    ensures { IfOk result (λ s. s ≡ element_of shape.now) }
{
    match shape {
        Some(Shape::Sequence(item)) => Ok(Some(copy_shape(alloc, item.get())?)),
        _ => Ok(None),
    }
}

impl Body<'_, '_> {
    fn choice(
        &self,
        test: TypedExpr,
        part: typed::Stmt,
        other: Option<Boxed<typed::Stmt>>,
    ) -> Result<typed::Stmt, AllocError>
        ensures { IfOk result (λ s. s ≡ If test part other) }
    {
        let boxed = Boxed::new(self.alloc, part)?;
        Ok(typed::Stmt::If(test, boxed, other))
    }

    #[cycle(statements)]
    pub(crate) fn statement(&self, tree: &Stmt, state: &mut State) -> Result<typed::Stmt, Refusal>
        ensures { Goes ((part_of tree.now).reads (around_of self.now)) state.old state.new result }
    {
        match &tree.node {
            StmtNode::Block(parts) => self.block(parts, state),
            StmtNode::On(on) => self.on(on, state),
            StmtNode::Declare(written, name) => self.declared(written, name, state),
            StmtNode::DeclareAs(written, name, value) => self.declared_as(
                written, name, value, state,
            ),
            StmtNode::DeclareOn(written, name, on) => self.declared_on(on, written, name, state),
            StmtNode::Assign(to, value) => self.assigned(to, value, state),
            StmtNode::AssignOn(to, on) => self.assigned_on(on, to, state),
            StmtNode::If(test, part, other) => {
                let test = self.boolean(test, state)?;
                let part = self.scoped_one(part.get(), state)?;
                let other = self.other(other, state)?;
                Ok(self.choice(test, part, other)?)
            }
            StmtNode::While(test, parts) => self.repeat(parts, test, state),
            StmtNode::For(name, items, parts) => self.over(parts, name, items, state),
            StmtNode::Break => self.broken(tree.spot, state),
            StmtNode::Continue => self.continued(tree.spot, state),
            StmtNode::Return(value) => self.returned(tree.spot, value, state),
            StmtNode::Die => Ok(typed::Stmt::Die),
            StmtNode::Print(text) => self.printed(text, state),
            StmtNode::Log(text, level) => self.logged(text, *level, state),
            StmtNode::Route(value) => self.routed(value, state),
            StmtNode::Send(value, to) => self.sent(value, to, state),
            StmtNode::Spawn(name, args, to) => self.spawned(tree.spot, name, args, to, state),
            StmtNode::Monitor(name, args) => self.controlled(tree.spot, name, args, state),
            StmtNode::Call(call) => self.called(call, state),
        }
    }

    /// Statements in a row.
    #[cycle(statements)]
    pub(crate) fn row(&self, trees: &Stmts, state: &mut State) -> Result<typed::Stmts, Refusal>
        ensures { Goes (row_read (around_of self.now) (map part_of trees.now)) state.old state.new result }
    {
        let mut made = typed::Stmts::new(self.alloc);
        for tree in trees.as_slice() {
            made.push(self.statement(tree, state)?)?;
        }
        Ok(made)
    }

    #[cycle(statements)]
    fn scoped_row(&self, trees: &Stmts, state: &mut State) -> Result<typed::Stmts, Refusal>
        ensures { Goes (scoped (row_read (around_of self.now) (map part_of trees.now))) state.old state.new result }
    {
        let len = state.scope.names.len();
        let made = self.row(trees, state)?;
        leave(state, len);
        Ok(made)
    }

    #[cycle(statements)]
    fn scoped_one(&self, tree: &Stmt, state: &mut State) -> Result<typed::Stmt, Refusal>
        ensures { Goes (scoped ((part_of tree.now).reads (around_of self.now))) state.old state.new result }
    {
        let len = state.scope.names.len();
        let made = self.statement(tree, state)?;
        leave(state, len);
        Ok(made)
    }

    #[cycle(statements)]
    fn block(&self, trees: &Stmts, state: &mut State) -> Result<typed::Stmt, Refusal>
        ensures { Goes (block_read (around_of self.now) (map part_of trees.now)) state.old state.new result }
    {
        let made = self.scoped_row(trees, state)?;
        Ok(typed::Stmt::Block(made))
    }

    #[cycle(statements)]
    fn other(
        &self,
        other: &Option<Boxed<Stmt>>,
        state: &mut State,
    ) -> Result<Option<Boxed<typed::Stmt>>, Refusal>
        ensures { Goes (other_read (around_of self.now) (option_map part_of other.now)) state.old state.new result }
    {
        match other {
            Some(tree) => {
                let made = self.scoped_one(tree.get(), state)?;
                let boxed = Boxed::new(self.alloc, made)?;
                Ok(Some(boxed))
            }
            None => Ok(None),
        }
    }

    #[cycle(statements)]
    fn repeat(&self, trees: &Stmts, test: &Expr, state: &mut State) -> Result<typed::Stmt, Refusal>
        ensures { Goes (while_read (around_of self.now) test.now (map part_of trees.now)) state.old state.new result }
    {
        let test = self.boolean(test, state)?;
        let made = self.inside().scoped_row(trees, state)?;
        Ok(typed::Stmt::While(test, made))
    }

    #[cycle(statements)]
    fn over(
        &self,
        trees: &Stmts,
        name: &Name,
        items: &Expr,
        state: &mut State,
    ) -> Result<typed::Stmt, Refusal>
        ensures { Goes (for_read (around_of self.now) name.now items.now (map part_of trees.now)) state.old state.new result }
    {
        new_name(name, state)?;
        let items = self.asked(Asks::Sequence, true, items, state)?;
        let len = state.scope.names.len();
        let element = element_of(self.alloc, &items.shape)?;
        let number = self.local(SeenKind::Loop, &name.text, element, state)?;
        let made = self.inside().row(trees, state)?;
        leave(state, len);
        Ok(typed::Stmt::For(number, items, made))
    }

    #[cycle(statements)]
    fn on(&self, on: &Listening, state: &mut State) -> Result<typed::Stmt, Refusal>
        ensures { Goes (on_read (around_of self.now) (on_part_of on.now)) state.old state.new result }
    {
        let site = self.listener(on, true, state)?;
        Ok(typed::Stmt::On(site))
    }

    #[cycle(statements)]
    fn declared_on(
        &self,
        on: &Listening,
        written: &TypeExpr,
        name: &Name,
        state: &mut State,
    ) -> Result<typed::Stmt, Refusal>
        ensures { Goes (declare_on_read (around_of self.now) written.now name.now (on_part_of on.now)) state.old state.new result }
    {
        let shape = shape_of(self.alloc, self.table, written)?;
        new_name(name, state)?;
        let site = self.listener(on, is_listener(&shape), state)?;
        let number = self.local(SeenKind::Local, &name.text, Some(shape), state)?;
        Ok(typed::Stmt::DeclareOn(number, site))
    }

    #[cycle(statements)]
    fn assigned_on(
        &self,
        on: &Listening,
        to: &Place,
        state: &mut State,
    ) -> Result<typed::Stmt, Refusal>
        ensures { Goes (assign_on_read (around_of self.now) to.now (on_part_of on.now)) state.old state.new result }
    {
        let to = place(self.alloc, self.table, &state.scope, to)?;
        let site = self.listener(on, takes_listener(target_shape(&to)), state)?;
        Ok(typed::Stmt::AssignOn(to.place, site))
    }

    #[cycle(statements)]
    fn listener(&self, on: &Listening, takes: bool, state: &mut State) -> Result<u16, Refusal>
        ensures { Goes ((on_part_of on.now).reads (around_of self.now) takes) state.old state.new result }
    {
        self.may_listen(on.spot, takes, state)?;
        let term = term(self.alloc, self.table, &state.scope, &on.event)?;
        self.callback(on.callback.get(), &on.event, term, state)
    }

    #[cycle(statements)]
    fn callback(
        &self,
        callback: &Stmt,
        event: &EventExpr,
        term: TypedTerm,
        state: &mut State,
    ) -> Result<u16, Refusal>
        ensures { Goes (callback_read (around_of self.now) event.now (part_of callback.now) term) state.old state.new result }
    {
        let number = self.site_number(state);
        let mut opened = self.opened(callback, event, term, state)?;
        let body = self.called_back().statement(callback, &mut opened.state)?;
        close(self.alloc, opened, body, state)?;
        Ok(number)
    }
}
