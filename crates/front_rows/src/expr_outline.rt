//! Expressions on one line. Each node of operators stands in parentheses, and each pair of written ones behind `group`.

use crate::type_outline::put_type;
use epl_tree::{Comparison, Entries, Expr, ExprNode, Exprs, Links, Operator, SuffixNode, Suffixes};
use std::alloc::AllocError;

/// An expression.
#[cycle(expressions)]
pub fn put_expr(out: &mut String, tree: &Expr) -> Result<(), AllocError> {
    let (open, between, close) = signs(&tree.node);
    out.push_str(open)?;
    match &tree.node {
        ExprNode::Or(first, rest) | ExprNode::Xor(first, rest) | ExprNode::And(first, rest) => {
            put_expr(out, first.get())?;
            put_exprs(out, between, between, rest)?;
        }
        ExprNode::Compare(left, comparison, right) => {
            put_expr(out, left.get())?;
            out.push_str(comparison_sign(*comparison))?;
            put_expr(out, right.get())?;
        }
        ExprNode::Sum(first, links) | ExprNode::Product(first, links) => {
            put_expr(out, first.get())?;
            put_links(out, links)?;
        }
        ExprNode::Not(inner) | ExprNode::Minus(inner) | ExprNode::Group(inner) => {
            put_expr(out, inner.get())?;
        }
        ExprNode::Postfix(first, suffixes) => {
            put_expr(out, first.get())?;
            put_suffixes(out, suffixes)?;
        }
        ExprNode::Call(_, args) | ExprNode::Context(args) => {
            out.push_str("(")?;
            put_exprs(out, "", ", ", args)?;
        }
        ExprNode::Sequence(items) => put_exprs(out, "", ", ", items)?,
        ExprNode::Dictionary(entries) => put_entries(out, entries)?,
        ExprNode::New(shape) => put_type(out, shape)?,
        ExprNode::Quoted(text) => put_quoted(out, text.as_str())?,
        _ => {}
    }
    out.push_str(close)
}

/// What stands before a node's parts, between the operands of a chain, and behind the parts; the whole of a node without parts.
fn signs(node: &ExprNode) -> (&str, &str, &str) {
    match node {
        ExprNode::Or(_, _) => ("(", " or ", ")"),
        ExprNode::Xor(_, _) => ("(", " xor ", ")"),
        ExprNode::And(_, _) => ("(", " and ", ")"),
        ExprNode::Compare(_, _, _) | ExprNode::Sum(_, _) | ExprNode::Product(_, _) => (
            "(", "", ")",
        ),
        ExprNode::Not(_) => ("(not ", "", ")"),
        ExprNode::Minus(_) => ("(- ", "", ")"),
        ExprNode::Group(_) => ("(group ", "", ")"),
        ExprNode::Sequence(_) => ("[", "", "]"),
        ExprNode::Dictionary(_) => ("{", "", "}"),
        ExprNode::New(_) => ("new ", "", ""),
        ExprNode::Context(_) => ("context", "", ")"),
        ExprNode::Call(name, _) => (name.as_str(), "", ")"),
        ExprNode::ContextCurrent => ("context.current()", "", ""),
        ExprNode::Integer(digits) => (digits.as_str(), "", ""),
        ExprNode::Boolean(true) => ("true", "", ""),
        ExprNode::Boolean(false) => ("false", "", ""),
        ExprNode::Name(name) => (name.as_str(), "", ""),
        ExprNode::Quoted(_) | ExprNode::Postfix(_, _) => ("", "", ""),
    }
}

/// A comparison between blanks.
pub fn comparison_sign(comparison: Comparison) -> &'static str {
    match comparison {
        Comparison::Equal => " = ",
        Comparison::NotEqual => " != ",
        Comparison::Less => " < ",
        Comparison::LessEqual => " <= ",
        Comparison::Greater => " > ",
        Comparison::GreaterEqual => " >= ",
    }
}

/// Expressions, the first of them behind one sign and each other one behind another.
#[cycle(expressions)]
pub fn put_exprs(
    out: &mut String,
    before: &str,
    between: &str,
    items: &Exprs,
) -> Result<(), AllocError> {
    let mut first = true;
    for tree in items.as_slice() {
        out.push_str(if first { before } else { between })?;
        put_expr(out, tree)?;
        first = false;
    }
    Ok(())
}

#[cycle(expressions)]
fn put_links(out: &mut String, links: &Links) -> Result<(), AllocError> {
    for link in links.as_slice() {
        out.push_str(match link.operator {
            Operator::Add => " + ",
            Operator::Subtract => " - ",
            Operator::Multiply => " * ",
            Operator::Divide => " / ",
            Operator::Remainder => " % ",
        })?;
        put_expr(out, &link.operand)?;
    }
    Ok(())
}

/// What follows a primary.
#[cycle(expressions)]
pub fn put_suffixes(out: &mut String, suffixes: &Suffixes) -> Result<(), AllocError> {
    for suffix in suffixes.as_slice() {
        match &suffix.node {
            SuffixNode::Field(name) => {
                out.push_str(".")?;
                out.push_str(name.as_str())?;
            }
            SuffixNode::Method(name, args) => {
                out.push_str(".")?;
                out.push_str(name.as_str())?;
                out.push_str("(")?;
                put_exprs(out, "", ", ", args)?;
                out.push_str(")")?;
            }
            SuffixNode::Index(index) => {
                out.push_str("[")?;
                put_expr(out, index.get())?;
                out.push_str("]")?;
            }
        }
    }
    Ok(())
}

#[cycle(expressions)]
fn put_entries(out: &mut String, entries: &Entries) -> Result<(), AllocError> {
    let mut first = true;
    for entry in entries.as_slice() {
        if !first {
            out.push_str(", ")?;
        }
        put_expr(out, &entry.key)?;
        out.push_str(": ")?;
        put_expr(out, &entry.value)?;
        first = false;
    }
    Ok(())
}

/// A text between quotes, with the escapes that a program has.
pub fn put_quoted(out: &mut String, text: &str) -> Result<(), AllocError> {
    out.push_str("\"")?;
    for char in text.chars() {
        match char {
            '"' => out.push_str("\\\"")?,
            '\\' => out.push_str("\\\\")?,
            '\n' => out.push_str("\\n")?,
            '\r' => out.push_str("\\r")?,
            '\t' => out.push_str("\\t")?,
            other => out.push(other)?,
        }
    }
    out.push_str("\"")
}
