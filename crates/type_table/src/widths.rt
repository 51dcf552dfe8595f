ghost use Rattle.std.specs.Prelude.{◌≡◌, ◌+◌, true, IfOk, length, map, min};
ghost use Rattle.std.specs.List.{sum_by};
ghost use Rattle.type_table.specs.Kinds.{trees};
ghost use Rattle.type_table.specs.Names.{number_in};
ghost use Rattle.type_table.specs.Chains.{at_number, field_count, fields_by, wider, turns};

use crate::kinds::Kinds;
use epl_tree::{EventDecl, TypeExpr, TypeNode};
use std::alloc::{AllocError, Global};

fn entry(table: &[u32], number: Option<usize>) -> u32
    ensures { result ≡ at_number 0 table.now number }
{
    match number {
        Some(number) => match table.get(number) {
            Some(value) => *value,
            None => 0,
        },
        None => 0,
    }
}

fn nested(kinds: &Kinds<'_>, table: &[u32], written: &TypeExpr) -> u32
    ensures { result + 1 ≡ field_count (λ n. at_number 0 table.now (number_in kinds.now.names n)) written.now }
{
    match &written.node {
        TypeNode::Named(name) => entry(table, kinds.names.number_of(name.as_str())),
        _ => 0,
    }
}

/// The fields that a field counts for, of which more than 257 count as that.
pub fn count(kinds: &Kinds<'_>, table: &[u32], written: &TypeExpr) -> u32
    ensures { result ≡ min 257 (field_count (λ n. at_number 0 table.now (number_in kinds.now.names n)) written.now) }
{
    nested(kinds, table, written).min(256) + 1
}

#[tactic(auto, unfolding(crate::specs::Chains::fields_by))]
fn total(kinds: &Kinds<'_>, table: &[u32], event: &EventDecl) -> u32
    ensures { result ≡ fields_by kinds.now.names table.now event.now }
{
    let mut total = 0u32;
    'fields: for field in event.fields.as_slice() {
        total = (total + count(kinds, table, &field.shape)).min(257);
    }
    total
}

fn wider(alloc: Global, kinds: &Kinds<'_>, table: &[u32]) -> Result<Vec<u32>, AllocError>
    ensures { IfOk result (λ v. v.items ≡ wider (trees kinds.now.decls.items) table.now) }
{
    let mut next = Vec::new(alloc);
    'events: for event in kinds.decls.as_slice() {
        next.push(total(kinds, table, event))?;
    }
    Ok(next)
}

fn same(left: &[u32], right: &[u32]) -> bool
    ensures { result ≡ true → left.now ≡ right.now }
{
    left == right
}

fn filled(alloc: Global, kinds: &Kinds<'_>) -> Result<Vec<u32>, AllocError>
    ensures { IfOk result (λ v. v.items ≡ map (λ e. 257) (trees kinds.now.decls.items)) }
{
    let mut table = Vec::new(alloc);
    'events: for _event in kinds.decls.as_slice() {
        table.push(257)?;
    }
    Ok(table)
}

/// How many fields each event type has, by its number, nested ones counted through; more than 256 count as 257.
#[tactic(auto, using(crate::proofs::Turned::turns_more, crate::proofs::Turned::turns_done, crate::proofs::Turned::length_trees))]
pub fn widths(alloc: Global, kinds: &Kinds<'_>) -> Result<Vec<u32>, AllocError>
    ensures { IfOk result (λ v. v.items ≡ turns (length (trees kinds.now.decls.items)) (wider (trees kinds.now.decls.items)) (map (λ e. 257) (trees kinds.now.decls.items))) }
{
    let mut table = filled(alloc, kinds)?;
    let count = kinds.decls.len();
    'turns: for _turn in 0..count {
        let next = wider(alloc, kinds, table.as_slice())?;
        if same(next.as_slice(), table.as_slice()) {
            return Ok(next);
        }
        table = next;
    }
    Ok(table)
}
