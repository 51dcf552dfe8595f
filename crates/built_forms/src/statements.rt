ghost use Rattle.std.specs.Prelude.{◌≡◌, ◌++◌, option_map};
ghost use Rattle.built_forms.specs.Rows.{first_of, behind};
ghost use Rattle.built_forms.specs.Expressions.{missing_in};
ghost use Rattle.built_forms.specs.Statements.{if_any, missing_in_place, missing_in_stmt, missing_in_listening, missing_in_body};

use crate::events::next_event;
use crate::expressions::{in_expr, in_optional, next_expr, next_suffixes};
use epl_tree::{Boxed, Expr, Listening, Place, Stmt, StmtNode, Stmts};
use span_text::Spot;

fn in_place(place: &Place) -> Option<Spot>
    ensures { result ≡ first_of (missing_in_place place.now) }
{
    next_suffixes(None, &place.steps)
}

/// The first form that isn't built in what is assigned and its value.
#[tactic(auto, using(crate::proofs::Row::rows))]
fn in_assigned(place: &Place, value: &Expr) -> Option<Spot>
    ensures { result ≡ first_of (missing_in_place place.now ++ missing_in value.now) }
{
    next_expr(in_place(place), value)
}

/// The first form in a statement that isn't built.
#[cycle(statements)]
#[tactic(auto, using(crate::proofs::Row::rows))]
fn in_stmt(tree: &Stmt) -> Option<Spot>
    ensures { result ≡ first_of (missing_in_stmt tree.now) }
{
    match &tree.node {
        StmtNode::Block(parts) => next_body(None, parts),
        StmtNode::On(on) => next_listening(None, on),
        StmtNode::Declare(_, _) => None,
        StmtNode::DeclareAs(_, _, value) => in_expr(value),
        StmtNode::DeclareOn(_, _, on) => next_listening(None, on),
        StmtNode::Assign(place, value) => in_assigned(place, value),
        StmtNode::AssignOn(place, on) => next_listening(in_place(place), on),
        StmtNode::If(test, part, other) => {
            next_other(next_stmt(in_expr(test), part.get()), other)
        }
        StmtNode::While(test, parts) => next_body(in_expr(test), parts),
        StmtNode::For(_, items, parts) => next_body(in_expr(items), parts),
        StmtNode::Break => None,
        StmtNode::Continue => None,
        StmtNode::Return(value) => in_optional(value),
        StmtNode::Die => None,
        StmtNode::Print(text) => in_expr(text),
        StmtNode::Log(text, _) => in_expr(text),
        StmtNode::Route(_) => Some(tree.spot),
        StmtNode::Send(_, _) => Some(tree.spot),
        StmtNode::Spawn(_, _, _) => Some(tree.spot),
        StmtNode::Monitor(_, _) => Some(tree.spot),
        StmtNode::Call(call) => in_expr(call),
    }
}

#[cycle(statements)]
fn next_stmt(before: Option<Spot>, tree: &Stmt) -> Option<Spot>
    ensures { result ≡ behind before (missing_in_stmt tree.now) }
{
    match before {
        Some(spot) => Some(spot),
        None => in_stmt(tree),
    }
}

#[cycle(statements)]
fn next_other(before: Option<Spot>, other: &Option<Boxed<Stmt>>) -> Option<Spot>
    ensures { result ≡ behind before (if_any (option_map missing_in_stmt other.now)) }
{
    match other {
        None => before,
        Some(part) => next_stmt(before, part.get()),
    }
}

#[cycle(statements)]
#[tactic(auto, using(crate::proofs::Row::rows))]
fn next_listening(before: Option<Spot>, on: &Listening) -> Option<Spot>
    ensures { result ≡ behind before (missing_in_listening on.now) }
{
    next_stmt(next_event(before, &on.event), on.callback.get())
}

/// What was found before, or else the first form in statements that isn't built.
#[cycle(statements)]
#[tactic(auto, using(crate::proofs::Row::rows))]
pub fn next_body(before: Option<Spot>, stmts: &Stmts) -> Option<Spot>
    ensures { result ≡ behind before (missing_in_body stmts.now) }
{
    let mut found = before;
    'stmts: for stmt in stmts.as_slice() {
        found = next_stmt(found, stmt);
    }
    found
}
