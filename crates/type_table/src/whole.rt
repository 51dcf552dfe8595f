ghost use Rattle.std.specs.Prelude.{◌≡◌, ◌≤◌, length, map, IfOk};
ghost use Rattle.type_table.specs.Kinds.{trees};
ghost use Rattle.type_table.specs.Depths.{AreDepths};
ghost use Rattle.type_table.specs.Names.{number_in};
ghost use Rattle.type_table.specs.Gathers.{Gathers, GathersUnits, GathersFile, numbers, event_shape, field_shape};

use crate::checking::{Facts, unit};
use crate::facts::depths;
use crate::fault::{CheckFault, Refusal};
use crate::gathered::{Gathered, none};
use crate::kinds::Kinds;
use crate::names::Names;
use crate::table::Table;
use crate::types::part_of;
use epl_tree::{Declaration, EventDecl, FieldDecl, Unit, Units};
use epl_values::{EventShape, EventShapes, Field, Fields, Text};
use std::alloc::{AllocError, Global};

fn field_shape(alloc: Global, names: &Names, field: &FieldDecl) -> Result<Field, AllocError>
    ensures { IfOk result (λ f. f ≡ field_shape (number_in names.now) field.now) }
{
    Ok(Field {
        name: Text::of(alloc, field.name.text.as_str())?,
        shape: part_of(alloc, names, &field.shape)?,
    })
}

fn event_shape(alloc: Global, names: &Names, event: &EventDecl) -> Result<EventShape, AllocError>
    ensures { IfOk result (λ e. e ≡ event_shape (number_in names.now) event.now) }
{
    let mut fields = Fields::new(alloc);
    'fields: for field in event.fields.as_slice() {
        fields.push(field_shape(alloc, names, field)?)?;
    }
    Ok(EventShape {
        name: Text::of(alloc, event.name.text.as_str())?,
        fields,
    })
}

fn event_shapes(alloc: Global, kinds: &Kinds<'_>) -> Result<EventShapes, AllocError>
    ensures { IfOk result (λ es. es ≡ map (event_shape (numbers (trees kinds.now.decls.items))) (trees kinds.now.decls.items)) }
{
    let mut shapes = EventShapes::new(alloc);
    'events: for event in kinds.decls.as_slice() {
        shapes.push(event_shape(alloc, kinds.names(), event)?)?;
    }
    Ok(shapes)
}

/// A file behind what was gathered before.
#[tactic(auto, using(crate::proofs::Filed::first_map))]
fn file(
    alloc: Global,
    facts: Facts<'_, '_>,
    before: Gathered,
    number: u32,
    declarations: &[Declaration],
) -> Result<Gathered, CheckFault>
    requires { AreDepths (trees facts.kinds.now.decls.items) facts.depths.now }
    ensures { GathersFile (trees facts.entry.kinds.now.decls.items) number before result declarations.now }
{
    match unit(alloc, facts, before, number, declarations) {
        Ok(gathered) => Ok(gathered),
        Err(Refusal::Fault(fault)) => Err(CheckFault::Typing(fault.code, number, fault.spot)),
        Err(Refusal::Memory) => Err(CheckFault::Memory),
    }
}

#[tactic(auto, using(crate::proofs::Filed::parts))]
fn units(alloc: Global, facts: Facts<'_, '_>, units: &[Unit]) -> Result<Gathered, CheckFault>
    requires depths { AreDepths (trees facts.kinds.now.decls.items) facts.depths.now }
    requires few { length units.now ≤ 4294967295 }
    ensures { GathersUnits (trees facts.entry.kinds.now.decls.items) result units.now }
{
    let mut gathered = none(alloc);
    'units: for (number, next) in units.iter().enumerate() {
        gathered = file(
            alloc,
            facts,
            gathered,
            number as u32,
            next.declarations.as_slice(),
        )?;
    }
    Ok(gathered)
}

/// The declarations of a program's files, or its first fault among event types and monitor heads, in order of the source
/// over the files. Where there is none, the other parts of monitors may still have faults.
#[tactic(auto, using(crate::proofs::Filed::whole))]
pub fn gather(alloc: Global, files: &Units) -> Result<Table, CheckFault>
    requires { length files.now ≤ 4294967295 }
    ensures { Gathers result files.now }
{
    let kinds = Kinds::of(alloc, files)?;
    let depths = depths(alloc, &kinds)?;
    let facts = Facts {
        kinds: &kinds,
        depths: &depths,
    };
    let gathered = units(alloc, facts, files.as_slice())?;
    let types = event_shapes(alloc, &kinds)?;
    let Gathered {
        names: _,
        events: _,
        actions: _,
        monitors,
    } = gathered;
    let Kinds { names, decls: _ } = kinds;
    Ok(Table::new(names, types, monitors))
}
