ghost use Rattle.std.specs.Prelude.{◌≡◌};
ghost use Rattle.stmt_check.specs.Endings.{ending_of, ends_with_return};

use epl_tree::{List, Stmt, StmtNode};

/// Whether a row of statements ends with a `return`.
#[cycle(endings)]
pub(crate) fn ends_with_return(stmts: &List<Stmt>) -> bool
    ensures { result ≡ ends_with_return stmts.now }
{
    match stmts.as_slice() {
        [] => false,
        [.., last] => is_last(last),
    }
}

#[cycle(endings)]
fn is_last(tree: &Stmt) -> bool
    ensures { result ≡ (ending_of tree.now).last }
{
    match &tree.node {
        StmtNode::Return(_) => true,
        StmtNode::If(_, part, Some(other)) => is_part(part.get()) && is_part(other.get()),
        _ => false,
    }
}

#[cycle(endings)]
fn is_part(tree: &Stmt) -> bool
    ensures { result ≡ (ending_of tree.now).part }
{
    match &tree.node {
        StmtNode::Block(stmts) => ends_with_return(stmts),
        StmtNode::Return(_) => true,
        StmtNode::If(_, part, Some(other)) => is_part(part.get()) && is_part(other.get()),
        _ => false,
    }
}
