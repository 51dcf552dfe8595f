ghost use Rattle.std.specs.Prelude.{◌≡◌, ◌&&◌};
ghost use Rattle.std.specs.List.{list_all};
ghost use Rattle.typed_program.specs.declared.expression.TypedEntry.{out-TypedEntry};
ghost use Rattle.typed_program.specs.declared.expression.TypedLink.{out-TypedLink};
ghost use Rattle.calm_exprs.specs.Calm.{is_calm, is_calm_step, are_calm};

use typed_program::{TypedEntry, TypedExpr, TypedLink, TypedNode, TypedSuffix, TypedSuffixNode};

/// Whether an expression calls no action, so that it leaves the variables as they are.
#[cycle(calm)]
#[tactic(auto, unfolding(crate::specs::Calm::is_calm, crate::specs::Calm::is_calm_step))]
pub fn calm(e: &TypedExpr) -> bool
    ensures { result ≡ is_calm e.now }
{
    match &e.node {
        TypedNode::Or(first, rest) => calm(first.get()) && all_calm(rest.as_slice()),
        TypedNode::Xor(first, rest) => calm(first.get()) && all_calm(rest.as_slice()),
        TypedNode::And(first, rest) => calm(first.get()) && all_calm(rest.as_slice()),
        TypedNode::Not(e) => calm(e.get()),
        TypedNode::Compare(left, _, right) => calm(left.get()) && calm(right.get()),
        TypedNode::Sum(first, links) => calm(first.get()) && links_calm(links.as_slice()),
        TypedNode::Product(first, links) => calm(first.get()) && links_calm(links.as_slice()),
        TypedNode::Minus(e) => calm(e.get()),
        TypedNode::Postfix(first, steps) => calm(first.get()) && steps_calm(steps.as_slice()),
        TypedNode::Action(..) => false,
        TypedNode::Event(_, arguments) => all_calm(arguments.as_slice()),
        TypedNode::Sequence(items) => all_calm(items.as_slice()),
        TypedNode::Dictionary(entries) => entries_calm(entries.as_slice()),
        TypedNode::Context(arguments) => all_calm(arguments.as_slice()),
        _ => true,
    }
}

#[cycle(calm)]
#[tactic(auto, unfolding(crate::specs::Calm::is_calm, crate::specs::Calm::is_calm_step))]
pub fn all_calm(es: &[TypedExpr]) -> bool
    ensures { result ≡ are_calm es.now }
{
    for e in es {
        if !calm(e) {
            return false;
        }
    }
    true
}

#[cycle(calm)]
#[tactic(auto, unfolding(crate::specs::Calm::is_calm, crate::specs::Calm::is_calm_step))]
fn links_calm(links: &[TypedLink]) -> bool
    ensures { result ≡ list_all (λ l. is_calm (out-TypedLink l).operand) links.now }
{
    for link in links {
        if !calm(&link.operand) {
            return false;
        }
    }
    true
}

#[cycle(calm)]
#[tactic(auto, unfolding(crate::specs::Calm::is_calm, crate::specs::Calm::is_calm_step))]
fn entries_calm(entries: &[TypedEntry]) -> bool
    ensures { result ≡ list_all (λ e. is_calm (out-TypedEntry e).key && is_calm (out-TypedEntry e).value) entries.now }
{
    for entry in entries {
        if !calm(&entry.key) || !calm(&entry.value) {
            return false;
        }
    }
    true
}

#[cycle(calm)]
#[tactic(auto, unfolding(crate::specs::Calm::is_calm, crate::specs::Calm::is_calm_step))]
fn steps_calm(steps: &[TypedSuffix]) -> bool
    ensures { result ≡ list_all is_calm_step steps.now }
{
    for step in steps {
        if !step_calm(step) {
            return false;
        }
    }
    true
}

#[cycle(calm)]
#[tactic(auto, unfolding(crate::specs::Calm::is_calm, crate::specs::Calm::is_calm_step))]
fn step_calm(step: &TypedSuffix) -> bool
    ensures { result ≡ is_calm_step step.now }
{
    match &step.node {
        TypedSuffixNode::Field(_) => true,
        TypedSuffixNode::Item(e) => calm(e.get()),
        TypedSuffixNode::Key(e) => calm(e.get()),
        TypedSuffixNode::Method(_, arguments) => all_calm(arguments.as_slice()),
    }
}
