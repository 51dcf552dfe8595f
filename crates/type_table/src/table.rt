ghost use Rattle.std.specs.Prelude.{◌≡◌, [], ◌∷◌, ◌++◌, map, OnOk};

use crate::names::Names;
use epl_values::{EventShapes, List, Shape, Text};

/// The head of a monitor, with the number of its file.
#[derive(Drop)]
pub struct MonitorHead {
    pub name: Text,
    pub file: u32,
    pub globals: GlobalHeads,
    pub actions: ActionHeads,
}

/// Monitors, in order of the source over all files.
pub type MonitorHeads = List<MonitorHead>;

/// The head of a global; `None` where its type isn't known.
#[derive(Drop)]
pub struct GlobalHead {
    pub name: Text,
    pub shape: Option<Shape>,
}

/// The globals of a monitor, in order of the source.
pub type GlobalHeads = List<GlobalHead>;

/// The head of an action, with its number in the program; one past 65,535 counts as that.
#[derive(Drop)]
pub struct ActionHead {
    pub name: Text,
    pub number: u16,
    pub params: ParamHeads,
    pub result: ResultHead,
}

/// The actions of a monitor, in order of the source.
pub type ActionHeads = List<ActionHead>;

/// A parameter; `None` where its type isn't known.
#[derive(Drop)]
pub struct ParamHead {
    pub name: Text,
    pub shape: Option<Shape>,
}

/// Parameters, in order.
pub type ParamHeads = List<ParamHead>;

/// What an action gives.
#[derive(Drop)]
pub enum ResultHead {
    Nothing,
    Value(Shape),
    /// Its type isn't known.
    Unknown,
}

/// The declarations of a program: its event types, no two of one name, and the heads of its monitors.
#[derive(Drop)]
pub struct Table {
    pub types: EventShapes,
    pub monitors: MonitorHeads,
    names: Names,
    ghost named: { names ≡ map (λ t. t.name) types },
}

impl Table {
    ghost use Rattle.type_table.specs.Table.{event_of};

    /// The number of the event type of a name.
    pub fn event_of(&self, name: &str) -> Option<usize>
        ensures { result ≡ event_of self.now name.now }
    {
        self.names.number_of(name)
    }

    /// The names of the event types.
    pub(crate) fn names(&self) -> &Names
        ensures { result.now ≡ map (λ t. t.name) self.now.types }
    {
        &self.names
    }

    /// The table of these event types, whose names are these, and of no monitors.
    pub(crate) fn new(names: Names, types: EventShapes, monitors: MonitorHeads) -> Table
        requires { names ≡ map (λ t. t.name) types }
        ensures types { result.types ≡ types }
        ensures monitors { result.monitors ≡ monitors }
    {
        Table {
            types,
            monitors,
            names,
        }
    }
}

impl MonitorHead {
    ghost use Rattle.type_table.specs.Table.{action_of};

    /// The place of the first action of a name.
    pub fn action_of(&self, name: &str) -> Option<usize>
        ensures { result ≡ action_of self.now name.now }
    {
        self.actions
            .as_slice()
            .iter()
            .position(|a| a.name.as_str() == name)
    }
}
