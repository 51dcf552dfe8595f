ghost use Rattle.std.specs.Prelude.{◌≡◌, ◌<◌, ◌≤◌, ◌++◌, ◌∷◌, [], false, IfOk, min, length};
ghost use Rattle.type_table.specs.Names.{has_name, number_in};
ghost use Rattle.type_table.specs.Heads.{monitor_head};
ghost use Rattle.type_table.specs.Gathers.{none_gathered, with_event, with_monitor};

use crate::heads::monitor_head;
use crate::names::Names;
use crate::table::MonitorHeads;
use crate::types::short;
use epl_tree::MonitorDecl;
use std::alloc::{AllocError, Global};

/// What is gathered of declarations: their names, how many event types and actions there are, and the heads of monitors.
#[derive(Drop)]
pub struct Gathered {
    pub names: Names,
    pub events: u32,
    pub actions: u16,
    pub monitors: MonitorHeads,
}

/// Nothing is gathered.
pub fn none(alloc: Global) -> Gathered
    ensures { result ≡ none_gathered }
{
    Gathered {
        names: Names::new(alloc),
        events: 0,
        actions: 0,
        monitors: MonitorHeads::new(alloc),
    }
}

/// Adds the name of an event type that is new.
pub fn add_event(alloc: Global, before: Gathered, name: &str) -> Result<Gathered, AllocError>
    requires new { has_name before.names name.now ≡ false }
    requires few { before.events < 1000 }
    ensures { IfOk result (λ g. g ≡ with_event before name.now) }
{
    let Gathered {
        mut names,
        events,
        actions,
        monitors,
    } = before;
    names.add(String::from_str(alloc, name)?)?;
    Ok(Gathered {
        names,
        events: events + 1,
        actions,
        monitors,
    })
}

/// Adds a monitor of a file, whose name is new.
pub fn add_monitor(
    alloc: Global,
    before: Gathered,
    types: &Names,
    file: u32,
    monitor: &MonitorDecl,
) -> Result<Gathered, AllocError>
    requires { has_name before.names monitor.now.name.text ≡ false }
    ensures { IfOk result (λ g. g ≡ with_monitor (number_in types.now) file before monitor.now) }
{
    let Gathered {
        mut names,
        events,
        actions,
        mut monitors,
    } = before;
    names.add(String::from_str(alloc, monitor.name.text.as_str())?)?;
    let head = monitor_head(alloc, types, file, actions, monitor)?;
    let actions = short(actions as usize + head.actions.len());
    monitors.push(head)?;
    Ok(Gathered {
        names,
        events,
        actions,
        monitors,
    })
}
