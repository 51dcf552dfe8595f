ghost use Rattle.std.specs.Prelude.{◌≡◌, ◌≤◌, ◌++◌, ◌∷◌, [], length, min, IfOk, ◌||◌, nat_le, nat_lt, ℕ};
ghost use Rattle.type_table.specs.Found.{Clears};
ghost use Rattle.type_table.specs.Kinds.{trees, kinds_of};
ghost use Rattle.type_table.specs.Types.{type_by};
ghost use Rattle.type_table.specs.Depths.{AreDepths};
ghost use Rattle.type_table.specs.Gathers.{count_of, is_named, field_faults, fields_faults, event_faults, monitor_faults, declaration_faults, faults_from, with_declaration, with_event, with_monitor, gathered_after, numbers};

use crate::depths::Depths;
use crate::facts::{fields_of, holds, is_past};
use crate::fault::Refusal;
use crate::gathered::{Gathered, add_event, add_monitor};
use crate::heads::has_onload;
use crate::kinds::Kinds;
use crate::told::{headed, named, placed};
use crate::types::shape_by;
use epl_tree::{Declaration, EventDecl, FieldDecl, MonitorDecl, TypeExpr};
use std::alloc::Global;

/// The event types of a program, and what they hold at any depth.
#[derive(Clone, Copy)]
pub struct Facts<'a, 't> {
    pub kinds: &'a Kinds<'t>,
    pub depths: &'a Depths,
}

fn is_named(name: &str, fields: &[FieldDecl]) -> bool
    ensures { result ≡ is_named name.now fields.now }
{
    'fields: for field in fields {
        if field.name.text.as_str() == name {
            return true;
        }
    }
    false
}

/// Whether a type has no fault.
fn resolved(alloc: Global, kinds: &Kinds<'_>, written: &TypeExpr) -> Result<(), Refusal>
    ensures { Clears result (type_by (numbers (trees kinds.now.decls.items)) written.now).faults }
{
    match shape_by(alloc, kinds.names(), written) {
        Ok(_) => Ok(()),
        Err(refusal) => Err(refusal),
    }
}

/// Whether a field is past a limit: behind 64 others, or the one with which more than 256 are counted.
fn is_full(before: &[FieldDecl], count: u32) -> bool
    ensures { (whole : ℕ) → count ≡ min 257 whole → result ≡ (nat_le 64 (length before.now) || nat_lt 256 whole) }
{
    before.len() >= 64 || count > 256
}

/// The count with a field more.
fn counted(facts: Facts<'_, '_>, before: &[FieldDecl], field: &FieldDecl, count: u32) -> u32
    requires depths { AreDepths (trees facts.kinds.now.decls.items) facts.depths.now }
    requires count { count ≡ min 257 (count_of (trees facts.kinds.now.decls.items) before.now) }
    ensures { result ≡ min 257 (count_of (trees facts.entry.kinds.now.decls.items) (before.now ++ field.now ∷ [])) }
{
    (count + fields_of(facts.kinds, facts.depths, &field.shape)).min(257)
}

#[tactic(auto, using(crate::proofs::Order::parts))]
fn field(
    alloc: Global,
    facts: Facts<'_, '_>,
    before: &[FieldDecl],
    field: &FieldDecl,
    count: u32,
) -> Result<(), Refusal>
    requires depths { AreDepths (trees facts.kinds.now.decls.items) facts.depths.now }
    requires count { count ≡ min 257 (count_of (trees facts.kinds.now.decls.items) (before.now ++ field.now ∷ [])) }
    ensures { Clears result (field_faults (trees facts.entry.kinds.now.decls.items) before.now field.now) }
{
    resolved(alloc, facts.kinds, &field.shape)?;
    let again = is_named(field.name.text.as_str(), before);
    let holds = holds(facts.kinds, facts.depths, &field.shape);
    placed(field.name.spot, again, holds, is_full(before, count))
}

#[tactic(auto, using(crate::proofs::Order::parts))]
fn fields(alloc: Global, facts: Facts<'_, '_>, fields: &[FieldDecl]) -> Result<(), Refusal>
    requires { AreDepths (trees facts.kinds.now.decls.items) facts.depths.now }
    ensures { Clears result (fields_faults (trees facts.entry.kinds.now.decls.items) [] fields.now) }
{
    let mut count = 0u32;
    'fields: for (place, next) in fields.iter().enumerate() {
        let before = &fields[..place];
        count = counted(facts, before, next, count);
        field(alloc, facts, before, next, count)?;
    }
    Ok(())
}

#[tactic(auto, using(crate::proofs::Order::parts))]
fn event(
    alloc: Global,
    facts: Facts<'_, '_>,
    before: Gathered,
    event: &EventDecl,
) -> Result<Gathered, Refusal>
    requires { AreDepths (trees facts.kinds.now.decls.items) facts.depths.now }
    ensures faults { Clears result (event_faults (trees facts.entry.kinds.now.decls.items) before event.now) }
    ensures after { IfOk result (λ g. g ≡ with_event before event.now.name.text) }
{
    let name = event.name.text.as_str();
    let again = before.names.has(name);
    let past = is_past(alloc, facts.kinds, facts.depths, before.events, name)?;
    named(event.name.spot, again, past)?;
    fields(alloc, facts, event.fields.as_slice())?;
    Ok(add_event(alloc, before, name)?)
}

#[tactic(auto, using(crate::proofs::Order::parts))]
fn monitor(
    alloc: Global,
    facts: Facts<'_, '_>,
    before: Gathered,
    file: u32,
    monitor: &MonitorDecl,
) -> Result<Gathered, Refusal>
    ensures faults { Clears result (monitor_faults (trees facts.entry.kinds.now.decls.items) before monitor.now) }
    ensures after { IfOk result (λ g. g ≡ with_monitor (numbers (trees facts.entry.kinds.now.decls.items)) file before monitor.now) }
{
    let again = before.names.has(monitor.name.text.as_str());
    let past = before.monitors.len() >= 1000;
    headed(
        monitor.name.spot,
        again,
        past,
        !has_onload(monitor.members.as_slice()),
    )?;
    Ok(add_monitor(alloc, before, facts.kinds.names(), file, monitor)?)
}

fn declaration(
    alloc: Global,
    facts: Facts<'_, '_>,
    before: Gathered,
    file: u32,
    declaration: &Declaration,
) -> Result<Gathered, Refusal>
    requires { AreDepths (trees facts.kinds.now.decls.items) facts.depths.now }
    ensures faults { Clears result (declaration_faults (trees facts.entry.kinds.now.decls.items) before declaration.now) }
    ensures after { IfOk result (λ g. g ≡ with_declaration (trees facts.entry.kinds.now.decls.items) file before declaration.now) }
{
    match declaration {
        Declaration::Event(declared) => event(alloc, facts, before, declared),
        Declaration::Monitor(declared) => monitor(alloc, facts, before, file, declared),
    }
}

/// The declarations of a file behind what was gathered before.
#[tactic(auto, using(crate::proofs::Order::parts))]
pub fn unit(
    alloc: Global,
    facts: Facts<'_, '_>,
    before: Gathered,
    file: u32,
    declarations: &[Declaration],
) -> Result<Gathered, Refusal>
    requires { AreDepths (trees facts.kinds.now.decls.items) facts.depths.now }
    ensures faults { Clears result (faults_from (trees facts.entry.kinds.now.decls.items) file before declarations.now) }
    ensures after { IfOk result (λ g. g ≡ gathered_after (trees facts.entry.kinds.now.decls.items) file before declarations.now) }
{
    let mut gathered = before;
    'declarations: for next in declarations {
        gathered = declaration(alloc, facts, gathered, file, next)?;
    }
    Ok(gathered)
}
