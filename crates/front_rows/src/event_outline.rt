//! Event expressions on one line, each node of operators in parentheses.

use crate::expr_outline::{comparison_sign, put_expr};
use epl_tree::{
    Constraint, ConstraintNode, Duration, DurationNode, EventExpr, EventExprs, EventNode, Mode,
    Range, Template, TemplateClause,
};
use std::alloc::AllocError;

/// An event expression.
#[cycle(events)]
pub fn put_event(out: &mut String, tree: &EventExpr) -> Result<(), AllocError> {
    match &tree.node {
        EventNode::Followed(first, rest) => {
            out.push_str("(")?;
            put_event(out, first.get())?;
            put_rest(out, " -> ", rest)
        }
        EventNode::Or(first, rest) => {
            out.push_str("(")?;
            put_event(out, first.get())?;
            put_rest(out, " or ", rest)
        }
        EventNode::Xor(first, rest) => {
            out.push_str("(")?;
            put_event(out, first.get())?;
            put_rest(out, " xor ", rest)
        }
        EventNode::And(first, rest) => {
            out.push_str("(")?;
            put_event(out, first.get())?;
            put_rest(out, " and ", rest)
        }
        EventNode::All(operand) => {
            out.push_str("(all ")?;
            put_event(out, operand.get())?;
            out.push_str(")")
        }
        EventNode::Not(operand) => {
            out.push_str("(not ")?;
            put_event(out, operand.get())?;
            out.push_str(")")
        }
        EventNode::Group(inner, within) => {
            out.push_str("(group ")?;
            put_event(out, inner.get())?;
            if let Some(duration) = within {
                put_duration(out, " within ", duration)?;
            }
            out.push_str(")")
        }
        EventNode::Wait(duration) => {
            put_duration(out, "wait(", duration)?;
            out.push_str(")")
        }
        EventNode::Template(template) => put_template(out, template),
    }
}

/// The operands behind the first, each behind its operator, and the end of the outline.
#[cycle(events)]
fn put_rest(out: &mut String, operator: &str, rest: &EventExprs) -> Result<(), AllocError> {
    for tree in rest.as_slice() {
        out.push_str(operator)?;
        put_event(out, tree)?;
    }
    out.push_str(")")
}

fn put_duration(out: &mut String, before: &str, duration: &Duration) -> Result<(), AllocError> {
    out.push_str(before)?;
    match &duration.node {
        DurationNode::Decimal(digits) => out.push_str(digits.as_str()),
        DurationNode::Seconds(seconds) => put_expr(out, seconds),
    }
}

fn put_template(out: &mut String, template: &Template) -> Result<(), AllocError> {
    out.push_str(match template.mode {
        Mode::Ordinary => "",
        Mode::Unmatched => "unmatched ",
        Mode::Completed => "completed ",
    })?;
    out.push_str(template.event.as_str())?;
    out.push_str("(")?;
    let mut sign = "";
    for constraint in template.constraints.as_slice() {
        out.push_str(sign)?;
        put_constraint(out, constraint)?;
        sign = ", ";
    }
    out.push_str(")")?;
    for clause in template.clauses.as_slice() {
        match clause {
            TemplateClause::As(name) => {
                out.push_str(" as ")?;
                out.push_str(name.text.as_str())?;
            }
            TemplateClause::Within(duration) => put_duration(out, " within ", duration)?,
        }
    }
    Ok(())
}

fn put_constraint(out: &mut String, constraint: &Constraint) -> Result<(), AllocError> {
    match &constraint.node {
        ConstraintNode::Any => out.push_str("*"),
        ConstraintNode::Equals(value) => put_expr(out, value),
        ConstraintNode::Compares(comparison, value) => {
            out.push_str(comparison_sign(*comparison).trim_start())?;
            put_expr(out, value)
        }
        ConstraintNode::Lies(range) => put_range(out, range),
        ConstraintNode::NamedCompares(field, comparison, value) => {
            out.push_str(field.as_str())?;
            out.push_str(comparison_sign(*comparison))?;
            put_expr(out, value)
        }
        ConstraintNode::NamedLies(field, range) => {
            out.push_str(field.as_str())?;
            out.push_str(" in ")?;
            put_range(out, range)
        }
    }
}

fn put_range(out: &mut String, range: &Range) -> Result<(), AllocError> {
    out.push_str(if range.low.closed { "[" } else { "(" })?;
    put_expr(out, &range.low.bound)?;
    out.push_str(" : ")?;
    put_expr(out, &range.high.bound)?;
    out.push_str(if range.high.closed { "]" } else { ")" })
}
