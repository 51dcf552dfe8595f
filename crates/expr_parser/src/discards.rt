//! Trees are let go here. A crate in which a tree can be let go proves that again for each type of tree; the crates above
//! leave it to these.

use epl_tree::{Expr, TypeExpr};

/// Lets an expression go.
pub fn discard_expression(_tree: Expr) {}

/// Lets a type go.
pub fn discard_type(_tree: TypeExpr) {}
