ghost use Rattle.std.specs.Prelude.{◌≡◌, ◌||◌, false, true, IfOk, length, map};
ghost use Rattle.type_table.specs.Kinds.{trees};
ghost use Rattle.type_table.specs.Names.{number_in};
ghost use Rattle.type_table.specs.Chains.{met, at_number, aim_of, begins, leads_on, turns};

use crate::kinds::Kinds;
use epl_tree::{EventDecl, TypeExpr, TypeNode};
use std::alloc::{AllocError, Global};

/// A search along chains of event types: for contexts and listeners, or for an event type if one is aimed at.
#[derive(Clone, Copy)]
pub struct Search<'a> {
    pub link: bool,
    pub aims: bool,
    pub target: &'a str,
}

/// What a table says of an event type.
pub fn entry(table: &[bool], number: Option<usize>) -> bool
    ensures { result ≡ at_number false table.now number }
{
    match number {
        Some(number) => match table.get(number) {
            Some(value) => *value,
            None => false,
        },
        None => false,
    }
}

fn is_met(kinds: &Kinds<'_>, search: Search<'_>, table: &[bool], name: &str) -> bool
    ensures { result ≡ (aim_of search.entry.aims search.entry.target.now name.now || at_number false table.now (number_in kinds.now.names name.now)) }
{
    (search.aims && search.target == name) || entry(table, kinds.names.number_of(name))
}

/// Whether a type leads there by what a table says.
pub fn met(kinds: &Kinds<'_>, search: Search<'_>, table: &[bool], written: &TypeExpr) -> bool
    ensures { result ≡ met search.entry.link (λ n. aim_of search.entry.aims search.entry.target.now n || at_number false table.now (number_in kinds.now.names n)) written.now }
{
    match &written.node {
        TypeNode::Integer => false,
        TypeNode::Boolean => false,
        TypeNode::Text => false,
        TypeNode::Context => search.link,
        TypeNode::Listener => search.link,
        TypeNode::Named(name) => is_met(kinds, search, table, name.as_str()),
        TypeNode::Sequence(item) => met(kinds, search, table, item.get()),
        TypeNode::Dictionary(key, value) => {
            met(kinds, search, table, key.get()) || met(kinds, search, table, value.get())
        }
    }
}

/// Whether a chain begins at an event type by what a table says.
#[tactic(auto, unfolding(crate::specs::Chains::begins))]
pub fn begins(kinds: &Kinds<'_>, search: Search<'_>, table: &[bool], event: &EventDecl) -> bool
    ensures { result ≡ begins search.entry.link (aim_of search.entry.aims search.entry.target.now) kinds.now.names table.now event.now }
{
    'fields: for field in event.fields.as_slice() {
        if met(kinds, search, table, &field.shape) {
            return true;
        }
    }
    false
}

fn longer(
    alloc: Global,
    kinds: &Kinds<'_>,
    search: Search<'_>,
    table: &[bool],
) -> Result<Vec<bool>, AllocError>
    ensures { IfOk result (λ v. v.items ≡ leads_on (trees kinds.now.decls.items) search.entry.link (aim_of search.entry.aims search.entry.target.now) table.now) }
{
    let mut next = Vec::new(alloc);
    'events: for event in kinds.decls.as_slice() {
        next.push(begins(kinds, search, table, event))?;
    }
    Ok(next)
}

fn same(left: &[bool], right: &[bool]) -> bool
    ensures { result ≡ true → left.now ≡ right.now }
{
    left == right
}

/// The same of each event type.
pub fn filled(alloc: Global, kinds: &Kinds<'_>, start: bool) -> Result<Vec<bool>, AllocError>
    ensures { IfOk result (λ v. v.items ≡ map (λ e. start) (trees kinds.now.decls.items)) }
{
    let mut table = Vec::new(alloc);
    'events: for _event in kinds.decls.as_slice() {
        table.push(start)?;
    }
    Ok(table)
}

/// Which event types lead there, by their numbers; start stands for what is behind chains longer than any without a cycle.
#[tactic(auto, using(crate::proofs::Turned::turns_more, crate::proofs::Turned::turns_done, crate::proofs::Turned::length_trees))]
pub fn leading(
    alloc: Global,
    kinds: &Kinds<'_>,
    search: Search<'_>,
    start: bool,
) -> Result<Vec<bool>, AllocError>
    ensures { IfOk result (λ v. v.items ≡ turns (length (trees kinds.now.decls.items)) (leads_on (trees kinds.now.decls.items) search.entry.link (aim_of search.entry.aims search.entry.target.now)) (map (λ e. start) (trees kinds.now.decls.items))) }
{
    let mut table = filled(alloc, kinds, start)?;
    let count = kinds.decls.len();
    'turns: for _turn in 0..count {
        let next = longer(alloc, kinds, search, table.as_slice())?;
        if same(next.as_slice(), table.as_slice()) {
            return Ok(next);
        }
        table = next;
    }
    Ok(table)
}
