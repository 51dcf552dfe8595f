ghost use Rattle.std.specs.Prelude.{◌≡◌, List};
ghost use Rattle.std.specs.List.{list_all};
ghost use Rattle.epl_values.specs.declared.shape.EventShape.{EventShape};
ghost use Rattle.body_meaning.specs.Expressions.{Calls};
ghost use Rattle.stmt_walker.specs.Steps.{changes, is_move};
ghost use Rattle.stmt_walker.specs.Roots.{Roots};
ghost use Rattle.stmt_walker.specs.Found.{Found};

use typed_program::{
    Method, TypedExpr, TypedExprs, TypedNode, TypedSuffix, TypedSuffixNode, Variable,
};

/// A method that changes its object, behind a path and further steps of it.
#[derive(Drop)]
pub struct ChangeIn<'e> {
    pub variable: Variable,
    pub path: &'e TypedExpr,
    pub steps: &'e [TypedSuffix],
    pub method: Method,
    pub arguments: &'e TypedExprs,
}

/// The change of a variable in place that an expression is as a statement; any other expression is a value there.
pub fn change_in(e: &TypedExpr) -> Option<ChangeIn<'_>>
    ensures { (types : List EventShape) (call : Calls) → Found types call e.now result }
{
    let TypedNode::Postfix(first, steps) = &e.node else {
        return None;
    };
    let variable = path_root(first.get())?;
    let (last, before) = steps.as_slice().split_last()?;
    let TypedSuffixNode::Method(method, arguments) = &last.node else {
        return None;
    };
    if changes(*method) && all_moves(before) {
        Some(ChangeIn {
            variable,
            path: first.get(),
            steps: before,
            method: *method,
            arguments,
        })
    } else {
        None
    }
}

/// The variable that a path begins at; an expression that is no path has none.
fn path_root(e: &TypedExpr) -> Option<Variable>
    ensures { (types : List EventShape) (call : Calls) → Roots types call e.now result }
{
    match &e.node {
        TypedNode::Global(n) => Some(Variable::Global(*n)),
        TypedNode::Local(n) => Some(Variable::Local(*n)),
        TypedNode::Postfix(first, steps) => {
            if all_moves(steps.as_slice()) {
                path_root(first.get())
            } else {
                None
            }
        }
        _ => None,
    }
}

fn changes(method: Method) -> bool
    ensures { result ≡ changes method }
{
    match method {
        Method::Append | Method::Remove | Method::Clear | Method::Add => true,
        _ => false,
    }
}

fn all_moves(steps: &[TypedSuffix]) -> bool
    ensures { result ≡ list_all is_move steps.now }
{
    for step in steps {
        if !moves(step) {
            return false;
        }
    }
    true
}

/// A method is the only step that doesn't lead on to a part.
fn moves(step: &TypedSuffix) -> bool
    ensures { result ≡ is_move step.now }
{
    match &step.node {
        TypedSuffixNode::Method(..) => false,
        _ => true,
    }
}
