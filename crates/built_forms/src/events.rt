ghost use Rattle.std.specs.Prelude.{◌≡◌, map};
ghost use Rattle.built_forms.specs.Rows.{joined, behind};
ghost use Rattle.built_forms.specs.Events.{missing_in_range, missing_in_constraint, missing_in_duration, missing_in_deadline, missing_in_clause, missing_in_template, missing_in_event};

use crate::expressions::next_expr;
use epl_tree::{
    Constraint, ConstraintNode, Constraints, Duration, DurationNode, EventExpr, EventExprs,
    EventNode, Range, Template, TemplateClause, TemplateClauses,
};
use span_text::Spot;

#[tactic(auto, using(crate::proofs::Row::rows))]
fn next_range(before: Option<Spot>, range: &Range) -> Option<Spot>
    ensures { result ≡ behind before (missing_in_range range.now) }
{
    next_expr(next_expr(before, &range.low.bound), &range.high.bound)
}

#[tactic(auto, using(crate::proofs::Row::rows))]
fn next_constraint(before: Option<Spot>, constraint: &Constraint) -> Option<Spot>
    ensures { result ≡ behind before (missing_in_constraint constraint.now) }
{
    match &constraint.node {
        ConstraintNode::Any => before,
        ConstraintNode::Equals(operand) => next_expr(before, operand),
        ConstraintNode::Compares(_, operand) => next_expr(before, operand),
        ConstraintNode::Lies(range) => next_range(before, range),
        ConstraintNode::NamedCompares(_, _, operand) => next_expr(before, operand),
        ConstraintNode::NamedLies(_, range) => next_range(before, range),
    }
}

#[tactic(auto, using(crate::proofs::Row::rows))]
fn next_constraints(before: Option<Spot>, constraints: &Constraints) -> Option<Spot>
    ensures { result ≡ behind before (joined (map missing_in_constraint constraints.now)) }
{
    let mut found = before;
    'constraints: for constraint in constraints.as_slice() {
        found = next_constraint(found, constraint);
    }
    found
}

#[tactic(auto, using(crate::proofs::Row::rows))]
fn next_duration(before: Option<Spot>, duration: &Duration) -> Option<Spot>
    ensures { result ≡ behind before (missing_in_duration duration.now) }
{
    match &duration.node {
        DurationNode::Decimal(_) => before,
        DurationNode::Seconds(operand) => next_expr(before, operand),
    }
}

#[tactic(auto, using(crate::proofs::Row::rows))]
fn next_deadline(before: Option<Spot>, within: &Option<Duration>) -> Option<Spot>
    ensures { result ≡ behind before (missing_in_deadline within.now) }
{
    match within {
        None => before,
        Some(duration) => next_duration(before, duration),
    }
}

#[tactic(auto, using(crate::proofs::Row::rows))]
fn next_clause(before: Option<Spot>, clause: &TemplateClause) -> Option<Spot>
    ensures { result ≡ behind before (missing_in_clause clause.now) }
{
    match clause {
        TemplateClause::As(_) => before,
        TemplateClause::Within(duration) => next_duration(before, duration),
    }
}

#[tactic(auto, using(crate::proofs::Row::rows))]
fn next_clauses(before: Option<Spot>, clauses: &TemplateClauses) -> Option<Spot>
    ensures { result ≡ behind before (joined (map missing_in_clause clauses.now)) }
{
    let mut found = before;
    'clauses: for clause in clauses.as_slice() {
        found = next_clause(found, clause);
    }
    found
}

#[tactic(auto, using(crate::proofs::Row::rows))]
fn next_template(before: Option<Spot>, template: &Template) -> Option<Spot>
    ensures { result ≡ behind before (missing_in_template template.now) }
{
    next_clauses(
        next_constraints(before, &template.constraints),
        &template.clauses,
    )
}

/// What was found before, or else the first form in an event expression that isn't built.
#[cycle(events)]
#[tactic(auto, using(crate::proofs::Row::rows))]
pub fn next_event(before: Option<Spot>, tree: &EventExpr) -> Option<Spot>
    ensures { result ≡ behind before (missing_in_event tree.now) }
{
    match &tree.node {
        EventNode::Followed(first, rest) => next_events(next_event(before, first.get()), rest),
        EventNode::Or(first, rest) => next_events(next_event(before, first.get()), rest),
        EventNode::Xor(first, rest) => next_events(next_event(before, first.get()), rest),
        EventNode::And(first, rest) => next_events(next_event(before, first.get()), rest),
        EventNode::All(operand) => next_event(before, operand.get()),
        EventNode::Not(operand) => next_event(before, operand.get()),
        EventNode::Group(inner, within) => next_deadline(next_event(before, inner.get()), within),
        EventNode::Wait(duration) => next_duration(before, duration),
        EventNode::Template(template) => next_template(before, template),
    }
}

#[cycle(events)]
#[tactic(auto, using(crate::proofs::Row::rows))]
fn next_events(before: Option<Spot>, trees: &EventExprs) -> Option<Spot>
    ensures { result ≡ behind before (joined (map missing_in_event trees.now)) }
{
    let mut found = before;
    'trees: for tree in trees.as_slice() {
        found = next_event(found, tree);
    }
    found
}
