ghost use Rattle.std.specs.Prelude.{◌≡◌, ◌++◌, ◌∷◌, [], take, option_copied, IfOk, OnOk, OnErr};
ghost use Rattle.type_table.specs.Table.{seen_of};
ghost use Rattle.type_table.specs.Scopes.{place_in, globals_after, params_from, with_global, start_names, start_of, with_seen, cut_to};

use crate::table::{GlobalHead, GlobalHeads, MonitorHead, ParamHeads, Table};
use crate::types::short;
use epl_values::{List, Memory, Shape, Text, copy_shape};
use std::alloc::{AllocError, Global};

/// What a visible name is.
#[derive(Clone, Copy, Debug, PartialEq, Eq)]
pub enum SeenKind {
    Global,
    Param,
    Local,
    Loop,
    /// A local of the body around a callback.
    OuterLocal,
    /// A parameter or loop variable of the body around a callback.
    OuterFixed,
    /// A co-assignment.
    Bound,
}

/// A visible name: its shape, which is `None` where its type isn't known, and its number.
#[derive(Drop)]
pub struct Seen {
    pub name: Text,
    pub shape: Option<Shape>,
    pub kind: SeenKind,
    pub number: u16,
}

/// Visible names, in order.
pub type Seens = List<Seen>;

/// The names that are visible at a place of a monitor, and whether its actions are visible there.
#[derive(Drop)]
pub struct Scope {
    pub monitor: u16,
    pub actions: bool,
    pub names: Seens,
}

impl Scope {
    /// The scope where the body of an action begins, by its place among those of its monitor. Without one it is the scope
    /// of the monitor's initial values, in which nothing is visible.
    pub fn new(
        alloc: Global,
        table: &Table,
        monitor: u16,
        action: Option<u16>,
    ) -> Result<Scope, Memory>
        ensures { IfOk result (λ s. s ≡ start_of table.now monitor action) }
    {
        let Some(action) = action else {
            return Ok(Scope {
                monitor,
                actions: false,
                names: Seens::new(alloc),
            });
        };
        let names = names_at(
            alloc,
            table.monitors.as_slice().get(monitor as usize),
            action,
        )?;
        Ok(Scope {
            monitor,
            actions: true,
            names,
        })
    }

    /// The place of a visible name.
    pub fn seen_of(&self, name: &str) -> Option<usize>
        ensures { result ≡ seen_of self.now name.now }
    {
        place_of(self.names.as_slice(), name)
    }

    /// Adds a name, the last. Where there is no memory the scope is as before.
    pub fn push(&mut self, seen: Seen) -> Result<(), Memory>
        ensures ok { OnOk result (self.new ≡ with_seen self.old seen) }
        ensures err { OnErr result (self.new ≡ self.old) }
    {
        self.names.push(seen)
    }

    /// Leaves the first names, at most as many as this.
    pub fn cut(&mut self, len: u32)
        ensures { self.new ≡ cut_to self.old len }
    {
        cut_names(&mut self.names, len as usize)
    }
}

fn place_of(seens: &[Seen], name: &str) -> Option<usize>
    ensures { result ≡ place_in seens.now name.now }
{
    seens.iter().position(|s| s.name.as_str() == name)
}

fn cut_names(names: &mut Seens, len: usize)
    ensures { names.new ≡ take len names.old }
{
    'last: while names.len() > len {
        names.pop();
    }
}

fn names_at(alloc: Global, monitor: Option<&MonitorHead>, action: u16) -> Result<Seens, AllocError>
    ensures { IfOk result (λ s. s ≡ start_names (option_copied monitor.entry) action) }
{
    let Some(monitor) = monitor else {
        return Ok(Seens::new(alloc));
    };
    let Some(action) = monitor.actions.as_slice().get(action as usize) else {
        return Ok(Seens::new(alloc));
    };
    let names = globals_seen(alloc, &monitor.globals)?;
    params_seen(alloc, names, &action.params)
}

fn globals_seen(alloc: Global, globals: &GlobalHeads) -> Result<Seens, AllocError>
    ensures { IfOk result (λ s. s ≡ globals_after [] 0 globals.now) }
{
    let mut seens = Seens::new(alloc);
    'globals: for (number, global) in globals.as_slice().iter().enumerate() {
        add_global(alloc, &mut seens, number, global)?;
    }
    Ok(seens)
}

fn add_global(
    alloc: Global,
    seens: &mut Seens,
    number: usize,
    global: &GlobalHead,
) -> Result<(), AllocError>
    ensures { OnOk result (seens.new ≡ with_global seens.old number global.now) }
{
    let name = global.name.as_str();
    if place_of(seens.as_slice(), name).is_some() {
        return Ok(());
    }
    let seen = Seen {
        name: Text::of(alloc, name)?,
        shape: copy_known(alloc, &global.shape)?,
        kind: SeenKind::Global,
        number: short(number),
    };
    seens.push(seen)
}

fn params_seen(alloc: Global, names: Seens, params: &ParamHeads) -> Result<Seens, AllocError>
    ensures { IfOk result (λ s. s ≡ names ++ params_from 0 params.now) }
{
    let mut names = names;
    'params: for (number, param) in params.as_slice().iter().enumerate() {
        let seen = Seen {
            name: Text::of(alloc, param.name.as_str())?,
            shape: copy_known(alloc, &param.shape)?,
            kind: SeenKind::Param,
            number: short(number),
        };
        names.push(seen)?;
    }
    Ok(names)
}

/// A copy of a shape, if it is known.
pub fn copy_known(alloc: Global, shape: &Option<Shape>) -> Result<Option<Shape>, AllocError>
    ensures { IfOk result (λ s. s ≡ shape.now) }
{
    match shape {
        Some(shape) => Ok(Some(copy_shape(alloc, shape)?)),
        None => Ok(None),
    }
}

/// A copy of a name that is seen.
pub fn copy_seen(alloc: Global, seen: &Seen) -> Result<Seen, AllocError>
    ensures { IfOk result (λ s. s ≡ seen.now) }
{
    let name = Text::of(alloc, seen.name.as_str())?;
    let shape = copy_known(alloc, &seen.shape)?;
    Ok(Seen {
        name,
        shape,
        kind: seen.kind,
        number: seen.number,
    })
}
