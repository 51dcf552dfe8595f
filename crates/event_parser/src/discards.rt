//! Event expressions are let go here, so that no crate above proves that again for each type of tree.

use epl_tree::EventExpr;

/// Lets an event expression go.
pub fn discard_event(_tree: EventExpr) {}
