ghost use Rattle.std.specs.Prelude.{◌≡◌};
ghost use Rattle.expr_rules.specs.Asked.{demand_of, asking, wanting, plain, negated, receiver, inside, assigned, wish_of, like, fixing, asked_by, paths_where, wish_wanted};

use epl_values::Shape;

/// What a place asks of an expression.
#[derive(Clone, Copy)]
pub enum Asks<'a> {
    /// A statement: a value or none.
    Statement,
    /// A value of any shape.
    Value,
    /// A value of one shape that isn't known, since its type isn't declared.
    Unknown,
    Exactly(&'a Shape),
    Integer,
    Boolean,
    Text,
    Context,
    /// A scalar.
    AnyKey,
    /// A scalar of this shape.
    Key(&'a Shape),
    /// An event of any type.
    Event,
    /// A sequence of any element.
    Sequence,
    /// A text or a context.
    Channel,
}

/// What a place asks of an expression, whether a path of reference type may stand there, and whether it names a
/// co-assignment where none may be named.
#[derive(Clone, Copy)]
pub struct Asked<'a> {
    pub asks: Asks<'a>,
    pub path: bool,
    pub astray: bool,
}

/// What a place asks of an expression: a shape, if it asks for one; whether a path of reference type may stand there;
/// and whether a value is asked for at all, which a statement doesn't.
#[derive(Drop)]
pub struct Wanted {
    pub shape: Option<Shape>,
    pub path: bool,
    pub result: bool,
}

/// Which paths of reference type may stand at a place.
#[derive(Clone, Copy)]
pub enum Paths {
    Refused,
    Free,
    /// All but those from a global.
    NotOfGlobals,
}

/// What is asked of a node inside an expression: besides, whether a change of what it reaches comes behind, whether a
/// minus stands right before it, and whether it is assigned.
#[derive(Clone, Copy)]
pub struct Need<'a> {
    pub asks: Asks<'a>,
    pub paths: Paths,
    pub changed: bool,
    pub signed: bool,
    pub assigned: bool,
    pub astray: bool,
}

/// What is asked by a place outside expressions.
pub fn need_of<'a>(asked: Asked<'a>) -> Need<'a>
    ensures { demand_of result ≡ asking asked.entry }
{
    Need {
        asks: asked.asks,
        paths: paths_where(asked.path),
        changed: false,
        signed: false,
        assigned: false,
        astray: asked.astray,
    }
}

fn paths_where(path: bool) -> Paths
    ensures { result ≡ paths_where path }
{
    if path { Paths::Free } else { Paths::Refused }
}

/// What is asked of a value of a shape, if it is known.
fn like(shape: &Option<Shape>) -> Asks<'_>
    ensures { wish_of result ≡ like shape.now }
{
    match shape {
        Some(shape) => Asks::Exactly(shape),
        None => Asks::Value,
    }
}

/// What is asked of a value at a place that fixes its shape, which may not be known.
pub fn fixing(shape: &Option<Shape>) -> Asks<'_>
    ensures { wish_of result ≡ fixing shape.now }
{
    match shape {
        Some(shape) => Asks::Exactly(shape),
        None => Asks::Unknown,
    }
}

pub fn asked_by<'a>(asks: Asks<'a>, paths: Paths) -> Need<'a>
    ensures { demand_of result ≡ asked_by (wish_of asks.entry) paths }
{
    Need {
        asks,
        paths,
        changed: false,
        signed: false,
        assigned: false,
        astray: false,
    }
}

/// A value that is no path.
pub fn plain<'a>(asks: Asks<'a>) -> Need<'a>
    ensures { demand_of result ≡ plain (wish_of asks.entry) }
{
    asked_by(asks, Paths::Refused)
}

/// What is asked right behind a minus.
pub fn negated<'a>() -> Need<'a>
    ensures { demand_of result ≡ negated }
{
    Need {
        asks: Asks::Value,
        paths: Paths::Refused,
        changed: false,
        signed: true,
        assigned: false,
        astray: false,
    }
}

/// What is asked before a `.` or a `[`.
pub fn receiver<'a>(changed: bool) -> Need<'a>
    ensures { demand_of result ≡ receiver changed }
{
    Need {
        asks: Asks::Value,
        paths: Paths::Free,
        changed,
        signed: false,
        assigned: false,
        astray: false,
    }
}

/// What is asked inside brackets.
pub fn inside<'a>(need: Need<'a>) -> Need<'a>
    ensures { demand_of result ≡ inside (demand_of need.entry) }
{
    Need {
        asks: need.asks,
        paths: need.paths,
        changed: need.changed,
        signed: false,
        assigned: need.assigned,
        astray: false,
    }
}

/// What is asked of a place that is assigned.
pub fn assigned<'a>() -> Need<'a>
    ensures { demand_of result ≡ assigned }
{
    Need {
        asks: Asks::Value,
        paths: Paths::Free,
        changed: true,
        signed: false,
        assigned: true,
        astray: false,
    }
}

/// What a place asks that is given from outside.
pub fn need_wanted(wanted: &Wanted) -> Need<'_>
    ensures { demand_of result ≡ wanting wanted.now }
{
    asked_by(
        asks_wanted(wanted.result, &wanted.shape),
        paths_where(wanted.path),
    )
}

fn asks_wanted(value: bool, shape: &Option<Shape>) -> Asks<'_>
    ensures { wish_of result ≡ wish_wanted value shape.now }
{
    if value { like(shape) } else { Asks::Statement }
}
