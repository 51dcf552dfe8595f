use term_meaning::Link;
use typed_program::{Duration, TemplateShape, Term};

/// A part of an event expression: an operand, and the operands of its chain that stand behind it in the part.
#[derive(Clone, Copy)]
pub struct Part<'a> {
    pub link: Link,
    pub first: &'a Term,
    pub rest: &'a [Term],
}

/// The outermost form of an event expression on two operands at most.
#[derive(Clone, Copy)]
pub enum Form<'a> {
    Template(&'a TemplateShape),
    Wait(Duration),
    All(Part<'a>),
    Followed(Part<'a>, Part<'a>),
    And(Part<'a>, Part<'a>),
    /// `X and not Y`
    AndNot(Part<'a>, Part<'a>),
    /// `not X and Y`
    NotAnd(Part<'a>, Part<'a>),
    Or(Part<'a>, Part<'a>),
    Xor(Part<'a>, Part<'a>),
    Within(Part<'a>, Duration),
}
