ghost use Rattle.std.specs.Prelude.{◌≡◌, slice_get, IfOk, IfErr, Ok};
ghost use Rattle.action_host.specs.Told.{Told};
ghost use Rattle.body_meaning.specs.declared.run.Frame.{Frame};
ghost use Rattle.body_meaning.specs.Paths.{part};
ghost use Rattle.body_meaning.specs.Runs.{given, pure};
ghost use Rattle.value_steps.specs.Orderly.{AreOrderly, IsOrderly, AreOrderlyMoves, IsOrderlyMove};
ghost use Rattle.value_steps.specs.Shown.{shown};
ghost use Rattle.walk_rules.specs.declared.stop.Stop.TheVariants.{Memory};
ghost use Rattle.walk_rules.specs.Ran.{Walks};
ghost use Rattle.path_bases.specs.Locals.{global_in};
ghost use Rattle.path_bases.specs.Bases.{followed_from, Stands, IsOrderlyBase, Holds, Finds};

use action_host::Fault;
use body_meaning::Move;
use epl_values::{Value, Values, copy};
use lists::List;
use std::alloc::{AllocError, Global};
use value_steps::{follow, part};
use walk_rules::Stop;

/// Where a path has come to: a value of its own, one that a local holds, or what these moves lead to from the global with this
/// number.
#[derive(Drop)]
pub enum Base<'x> {
    Own(Value),
    Lent(&'x Value),
    Global(u16, List<Move>),
}

/// The value that moves lead to from a global.
fn reached<'g>(globals: &'g Values, number: u16, moves: &List<Move>) -> Result<&'g Value, Fault>
    requires { AreOrderly globals.now }
    ensures value { shown result ≡ followed_from moves.now (slice_get globals.now number) }
    ensures order { IfOk result (λ v. IsOrderly v.now) }
{
    match globals.as_slice().get(number as usize) {
        Some(value) => follow(value, moves.as_slice()),
        None => Err(Fault::IndexOutOfRange),
    }
}

/// A copy of the value that moves lead to from a global.
fn reached_copy(
    alloc: Global,
    number: u16,
    moves: &List<Move>,
    globals: &Values,
) -> Result<Value, Stop>
    requires { AreOrderly globals.now }
    ensures value { IfOk result (λ v. followed_from moves.now (slice_get globals.now number) ≡ Ok v) }
    ensures memory { (v : _) → followed_from moves.now (slice_get globals.now number) ≡ Ok v → IfErr result (λ stop. stop ≡ Memory) }
    ensures order { IfOk result IsOrderly }
{
    let value = reached(globals, number, moves)?;
    Ok(copy(alloc, value)?)
}

/// A global as the base of a path.
pub fn global_base(alloc: Global, globals: &Values, number: u16) -> Base<'static>
    ensures stands { Stands globals.now result (global_in globals.now number) }
    ensures order { IsOrderlyBase result }
{
    if (number as usize) < globals.len() {
        Base::Global(number, List::new(alloc))
    } else {
        Base::Own(Value::NoContext)
    }
}

/// The value of a base, to be read.
pub fn value_at<'s>(base: &'s Base<'_>, globals: &'s Values) -> Result<&'s Value, Fault>
    requires order { AreOrderly globals.now }
    ensures value { (v : _) → Stands globals.now base.now v → shown result ≡ Ok v }
    ensures order { IsOrderlyBase base.now → IfOk result (λ v. IsOrderly v.now) }
{
    match base {
        Base::Own(value) => Ok(value),
        Base::Lent(value) => Ok(value),
        Base::Global(number, moves) => reached(globals, *number, moves),
    }
}

/// A value of its own that is the base's.
pub fn settle(alloc: Global, base: Base<'_>, globals: &Values) -> Result<Value, Stop>
    requires order { AreOrderly globals.now }
    ensures means { (v : _) → Stands globals.now base.entry v → (told : Told) (frame : _) → Walks (pure v) told frame told frame result }
    ensures kept { IsOrderlyBase base.entry → IfOk result IsOrderly }
{
    match base {
        Base::Own(value) => Ok(value),
        Base::Lent(value) => Ok(copy(alloc, value)?),
        Base::Global(number, moves) => reached_copy(alloc, number, &moves, globals),
    }
}

/// A base that goes on standing for its value while other things run: what is reached from a global is copied, unless they are
/// said to leave the globals as they are.
pub fn held_unless<'x>(
    alloc: Global,
    still: bool,
    base: Base<'x>,
    globals: &Values,
) -> Result<Base<'x>, Stop>
    requires order { AreOrderly globals.now }
    requires base { IsOrderlyBase base }
    ensures holds { (v : _) → Stands globals.now base.entry v → Holds still globals.now v result }
    ensures kept { IfOk result (λ b. IsOrderlyBase b) }
{
    match base {
        Base::Own(value) => Ok(Base::Own(value)),
        Base::Lent(value) => Ok(Base::Lent(value)),
        Base::Global(number, moves) => held_global(alloc, still, number, moves, globals),
    }
}

fn held_global(
    alloc: Global,
    still: bool,
    number: u16,
    moves: List<Move>,
    globals: &Values,
) -> Result<Base<'static>, Stop>
    requires order { AreOrderly globals.now }
    requires steps { AreOrderlyMoves moves }
    ensures holds { (v : _) → followed_from moves (slice_get globals.now number) ≡ Ok v → Holds still globals.now v result }
    ensures kept { IfOk result (λ b. IsOrderlyBase b) }
{
    if still {
        return Ok(Base::Global(number, moves));
    }
    let value = reached_copy(alloc, number, &moves, globals)?;
    Ok(Base::Own(value))
}

/// A step from a base.
pub fn stepped<'x>(
    alloc: Global,
    base: Base<'x>,
    to: Move,
    globals: &Values,
) -> Result<Base<'x>, Stop>
    requires order { AreOrderly globals.now }
    requires base { IsOrderlyBase base }
    requires step { IsOrderlyMove to }
    ensures means { (v : _) → Stands globals.now base.entry v → (told : Told) (locals : _) → Finds (given (part to v)) told (record { globals = globals.now; locals = locals }) told (record { globals = globals.now; locals = locals }) result }
    ensures kept { IfOk result (λ b. IsOrderlyBase b) }
{
    match base {
        Base::Own(value) => own_part(alloc, value, to),
        Base::Lent(value) => lent_part(value, to),
        Base::Global(number, moves) => global_part(number, moves, to, globals),
    }
}

fn own_part(alloc: Global, value: Value, to: Move) -> Result<Base<'static>, Stop>
    requires { IsOrderly value }
    ensures means { (told : Told) (frame : Frame) → Finds (given (part to value)) told frame told frame result }
    ensures kept { IfOk result (λ b. IsOrderlyBase b) }
{
    let found = part(&value, &to)?;
    Ok(Base::Own(copy(alloc, found)?))
}

fn lent_part<'x>(value: &'x Value, to: Move) -> Result<Base<'x>, Stop>
    requires { IsOrderly value.now }
    ensures means { (told : Told) (frame : Frame) → Finds (given (part to value.now)) told frame told frame result }
    ensures kept { IfOk result (λ b. IsOrderlyBase b) }
{
    let found = part(value, &to)?;
    Ok(Base::Lent(found))
}

fn global_part(
    number: u16,
    moves: List<Move>,
    to: Move,
    globals: &Values,
) -> Result<Base<'static>, Stop>
    requires order { AreOrderly globals.now }
    requires steps { AreOrderlyMoves moves }
    requires step { IsOrderlyMove to }
    ensures means { (v : _) → followed_from moves (slice_get globals.now number) ≡ Ok v → (told : Told) (locals : _) → Finds (given (part to v)) told (record { globals = globals.now; locals = locals }) told (record { globals = globals.now; locals = locals }) result }
    ensures kept { IfOk result (λ b. IsOrderlyBase b) }
{
    let value = reached(globals, number, &moves)?;
    let _found = part(value, &to)?;
    let mut moves = moves;
    moves.push(to)?;
    Ok(Base::Global(number, moves))
}
