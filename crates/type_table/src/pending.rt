ghost use Rattle.std.specs.Prelude.{◌≡◌, ◌<◌, false, IfOk, length, slice_set};
ghost use Rattle.type_table.specs.Kinds.{trees};
ghost use Rattle.type_table.specs.Pending.{ArePending};

use crate::chains::{Search, begins, entry, filled};
use crate::kinds::Kinds;
use epl_tree::{EventDecl, TypeExpr, TypeNode};
use std::alloc::{AllocError, Global};

/// An event type that waits for those that it names, from one of its fields on.
#[derive(Clone, Copy)]
struct Waiting {
    number: usize,
    field: usize,
}

/// The order in which event types are settled: those first that others name.
#[derive(Drop)]
struct Order {
    fresh: Vec<bool>,
    waiting: Vec<Waiting>,
    next: usize,
}

/// The number of the first pending event type that is named in a type.
fn pending_in(kinds: &Kinds<'_>, table: &[bool], written: &TypeExpr) -> Option<usize> {
    match &written.node {
        TypeNode::Named(name) => pending_number(kinds, table, name.as_str()),
        TypeNode::Sequence(item) => pending_in(kinds, table, item.get()),
        TypeNode::Dictionary(key, value) => match pending_in(kinds, table, key.get()) {
            Some(number) => Some(number),
            None => pending_in(kinds, table, value.get()),
        },
        _ => None,
    }
}

fn pending_number(kinds: &Kinds<'_>, table: &[bool], name: &str) -> Option<usize> {
    let number = kinds.names.number_of(name);
    if entry(table, number) { number } else { None }
}

/// The first field from a place on in which a pending event type is named, and its number.
fn pending_field(
    kinds: &Kinds<'_>,
    table: &[bool],
    event: &EventDecl,
    from: usize,
) -> Option<(usize, usize)> {
    let fields = event.fields.as_slice();
    'fields: for field in from..fields.len() {
        if let Some(number) = pending_in(kinds, table, &fields[field].shape) {
            return Some((field, number));
        }
    }
    None
}

impl Order {
    fn is_fresh(&self, number: usize) -> bool {
        entry(self.fresh.as_slice(), Some(number))
    }

    fn begin(&mut self, number: usize) -> Result<(), AllocError> {
        self.waiting.push(Waiting { number, field: 0 })?;
        if number < self.fresh.len() {
            self.fresh[number] = false;
        }
        Ok(())
    }

    /// Goes on to the next event type of the source.
    fn go_on(&mut self) -> Result<(), AllocError> {
        let number = self.next;
        self.next = number.saturating_add(1);
        if self.is_fresh(number) {
            self.begin(number)?;
        }
        Ok(())
    }

    /// Begins an event type that is named in a field of another. One that was begun already is in a cycle with it, or waits
    /// for one: then the other is left pending.
    fn go_into(&mut self, waiting: Waiting, named: usize) -> Result<(), AllocError> {
        if !self.is_fresh(named) {
            return Ok(());
        }
        self.waiting.push(waiting)?;
        self.begin(named)
    }

    /// The event type that may be settled next, if none comes before it.
    fn turn(&mut self, kinds: &Kinds<'_>, table: &[bool]) -> Result<Option<usize>, AllocError> {
        let Some(top) = self.waiting.pop() else {
            self.go_on()?;
            return Ok(None);
        };
        let number = top.number;
        let Some(event) = kinds.decls.get(number) else {
            return Ok(None);
        };
        let Some((field, named)) = pending_field(kinds, table, event, top.field) else {
            return Ok(Some(number));
        };
        self.go_into(Waiting { number, field }, named)?;
        Ok(None)
    }
}

fn mark(table: Vec<bool>, number: usize) -> Vec<bool>
    requires { number < length table.items }
    ensures { result.items ≡ slice_set table.items number false }
{
    let mut table = table;
    table[number] = false;
    table
}

/// Settles an event type, if it names no pending one.
fn settle(kinds: &Kinds<'_>, table: Vec<bool>, number: usize) -> Vec<bool>
    requires { ArePending (trees kinds.now.decls.items) table.items }
    ensures { ArePending (trees kinds.now.decls.items) result.items }
{
    let search = Search {
        link: false,
        aims: false,
        target: "",
    };
    let Some(event) = kinds.decls.get(number) else {
        return table;
    };
    if !entry(table.as_slice(), Some(number)) || begins(kinds, search, table.as_slice(), event) {
        return table;
    }
    mark(table, number)
}

/// Which event types may be in a cycle, by their numbers. Each is settled behind those that it names, and looked at three times
/// at most: where the source comes to it, where another names it, and where it is settled.
#[tactic(auto, using(crate::proofs::Settled::first))]
pub fn pending(alloc: Global, kinds: &Kinds<'_>) -> Result<Vec<bool>, AllocError>
    ensures { IfOk result (λ v. ArePending (trees kinds.now.decls.items) v.items) }
{
    let mut table = filled(alloc, kinds, true)?;
    let mut order = Order {
        fresh: filled(alloc, kinds, true)?,
        waiting: Vec::new(alloc),
        next: 0,
    };
    let turns = kinds.decls.len().saturating_mul(3);
    'turns: for _turn in 0..turns {
        if let Some(number) = order.turn(kinds, table.as_slice())? {
            table = settle(kinds, table, number);
        }
    }
    Ok(table)
}
