use epl_tree::{Expr, Listening};

/// What stands behind `:=`.
#[derive(Drop)]
pub enum Assigned {
    Value(Expr),
    Listener(Listening),
}
