//! What event expressions mean: what fits a template, how an expression begins, and how a stimulus moves it.
#![tactic(auto)]

mod held;
mod leaf;
mod progress;
mod stimulus;

pub use epl_tree::Mode;
pub use held::Held;
pub use leaf::{Computed, Leaf, Leaves, Span, Spans, TextEnd, TextRange};
pub use progress::{
    Both, Grown, Link, Progress, Ran, Running, RunningCopies, Sides, Started, Stepped,
};
pub use stimulus::{Binding, Completion, Completions, Stimulus};
