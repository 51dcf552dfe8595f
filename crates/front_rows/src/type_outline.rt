//! Types on one line.

use epl_tree::{TypeExpr, TypeNode};
use std::alloc::AllocError;

/// A type as it is written, without blanks of its own.
pub fn put_type(out: &mut String, tree: &TypeExpr) -> Result<(), AllocError> {
    match &tree.node {
        TypeNode::Integer => out.push_str("integer"),
        TypeNode::Boolean => out.push_str("boolean"),
        TypeNode::Text => out.push_str("string"),
        TypeNode::Context => out.push_str("context"),
        TypeNode::Listener => out.push_str("listener"),
        TypeNode::Named(name) => out.push_str(name.as_str()),
        TypeNode::Sequence(element) => {
            out.push_str("sequence<")?;
            put_type(out, element.get())?;
            out.push_str(">")
        }
        TypeNode::Dictionary(key, value) => {
            out.push_str("dictionary<")?;
            put_type(out, key.get())?;
            out.push_str(", ")?;
            put_type(out, value.get())?;
            out.push_str(">")
        }
    }
}
