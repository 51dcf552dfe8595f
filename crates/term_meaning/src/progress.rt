use crate::held::Held;
use crate::leaf::Leaf;
use crate::stimulus::{Completion, Completions};
use epl_values::List;

/// What joins the operands of a chain.
#[derive(Clone, Copy, Debug, PartialEq, Eq)]
pub enum Link {
    Followed,
    Or,
    Xor,
    And,
}

/// What an event expression has come to.
#[cycle(progress)]
#[derive(Drop)]
pub enum Progress {
    /// Nothing is left.
    Gone,
    Template(Leaf),
    /// The number of its leaf, and when it is due.
    Wait(u64, i128),
    All(Held<Progress>),
    /// The left side of `->`, and the running copies of the right side.
    Followed(Held<Progress>, RunningCopies),
    /// Both sides of an `and`, and the last completion of each.
    And(Sides, Option<Completion>, Option<Completion>),
    /// `X and not Y`
    AndNot(Sides),
    /// `not X and Y`
    NotAnd(Sides),
    Or(Sides),
    Xor(Sides),
    /// The number of the deadline leaf of a group, its deadline, and what is in the group.
    Within(u64, i128, Held<Progress>),
}

/// Both sides of a form.
#[cycle(progress)]
#[derive(Drop)]
pub struct Sides {
    pub left: Held<Progress>,
    pub right: Held<Progress>,
}

/// A running copy of the right side of `->`, with all that was bound when it was started.
#[cycle(progress)]
#[derive(Drop)]
pub struct Running {
    pub bindings: Completion,
    pub progress: Progress,
}

/// Running copies, in order of their beginning.
pub type RunningCopies = List<Running>;

/// An expression that was started, and the number of the next leaf.
#[derive(Drop)]
pub struct Started {
    pub progress: Held<Progress>,
    pub next: u64,
}

/// What a step gives: the completions in order, what is left, the number of the next leaf, and whether an active ordinary leaf
/// fitted the event.
#[derive(Drop)]
pub struct Stepped {
    pub completions: Completions,
    pub left: Progress,
    pub next: u64,
    pub fitted: bool,
}

/// What the running copies of a `->` give in a step, and what they have come to.
#[derive(Drop)]
pub struct Ran {
    pub completions: Completions,
    pub copies: RunningCopies,
    pub next: u64,
    pub fitted: bool,
}

/// Running copies, the new ones behind the others, and the number of the next leaf.
#[derive(Drop)]
pub struct Grown {
    pub copies: RunningCopies,
    pub next: u64,
}

/// What the two sides of a form give.
#[derive(Drop)]
pub struct Both {
    pub left: Stepped,
    pub right: Stepped,
}
