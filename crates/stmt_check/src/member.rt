ghost use Rattle.std.specs.Prelude.{◌≡◌, [], option_map, OnOk};
ghost use Rattle.stmt_check.specs.Bodies.{action_named};
ghost use Rattle.stmt_check.specs.Members.{global_codes, initial_read, global_read, member_read, members_read, number_of, with_global, with_monitor, monitor_read};
ghost use Rattle.stmt_check.specs.Steps.{Goes, optional};
ghost use Rattle.type_table.specs.Found.{Clears, told};

use crate::action::{Reader, globals_before};
use crate::body::action_named;
use crate::made::Made;
use epl_tree::{Expr, GlobalDecl, Member, MonitorDecl, Name};
use epl_values::{Shape, Text};
use expr_check::judge;
use expr_rules::{Asked, Asks};
use std::alloc::{AllocError, Global};
use std::mem;
use type_table::{Fault, Refusal, Scope, Table, shape_of, short};
use typed_program::{Global as TypedGlobal, Globals, Monitor, TypedExpr};

impl Reader<'_> {
    fn may_hold(&self, before: &[Member], name: &Name) -> Result<(), Refusal>
        ensures { Clears result (told name.now.spot (global_codes self.now.table.now before.now name.now.text)) }
    {
        let spot = name.spot;
        if self.is_taken(before, name.text.as_str()) {
            return Err(Refusal::Fault(Fault { code: 1, spot }));
        }
        if globals_before(before) >= 256 {
            return Err(Refusal::Fault(Fault { code: 4, spot }));
        }
        Ok(())
    }

    fn initial(&self, shape: &Shape, tree: &Expr, made: &Made) -> Result<TypedExpr, Refusal>
        ensures { Goes (initial_read self.now.table.now shape.now tree.now) made.now made.now result }
    {
        let scope = Scope::new(self.alloc, self.table, short(made.monitors.len()), None)?;
        let asked = Asked {
            asks: Asks::Exactly(shape),
            path: false,
            astray: false,
        };
        judge(self.alloc, self.table, &scope, tree, asked)
    }

    fn maybe_initial(
        &self,
        shape: &Shape,
        tree: &Option<Expr>,
        made: &Made,
    ) -> Result<Option<TypedExpr>, Refusal>
        ensures { Goes (optional (option_map (initial_read self.now.table.now shape.now) tree.now)) made.now made.now result }
    {
        match tree {
            Some(tree) => Ok(Some(self.initial(shape, tree, made)?)),
            None => Ok(None),
        }
    }

    fn global(&self, before: &[Member], decl: &GlobalDecl, made: &mut Made) -> Result<(), Refusal>
        ensures { Goes (global_read self.now.table.now before.now decl.now) made.old made.new result }
    {
        let shape = shape_of(self.alloc, self.table, &decl.shape)?;
        self.may_hold(before, &decl.name)?;
        let initial = self.maybe_initial(&shape, &decl.initial, made)?;
        add_global(self.alloc, &decl.name.text, shape, initial, made)?;
        Ok(())
    }

    fn member(&self, before: &[Member], member: &Member, made: &mut Made) -> Result<(), Refusal>
        ensures { Goes (member_read self.now.table.now self.now.members.now before.now member.now) made.old made.new result }
    {
        match member {
            Member::Global(decl) => self.global(before, decl, made),
            Member::Action(decl) => self.action(before, decl, made),
        }
    }

    fn members(&self, made: &mut Made) -> Result<(), Refusal>
        ensures { Goes (members_read self.now.table.now self.now.members.now [] self.now.members.now) made.old made.new result }
    {
        'members: for (at, member) in self.members.iter().enumerate() {
            self.member(&self.members[..at], member, made)?;
        }
        Ok(())
    }
}

fn add_global(
    alloc: Global,
    name: &Text,
    shape: Shape,
    initial: Option<TypedExpr>,
    made: &mut Made,
) -> Result<(), AllocError>
    ensures { OnOk result (made.new ≡ with_global name.now shape initial made.old) }
{
    let name = Text::of(alloc, name.as_str())?;
    let global = TypedGlobal {
        name,
        shape,
        initial,
    };
    made.globals.push(global)
}

fn action_number(table: &Table, monitor: u16, name: &str) -> Option<u16>
    ensures { result ≡ number_of (action_named table.now monitor name.now) }
{
    action_named(table, monitor, name).map(|action| action.number)
}

fn add_monitor(alloc: Global, table: &Table, name: &Text, made: &mut Made) -> Result<(), AllocError>
    ensures { OnOk result (made.new ≡ with_monitor table.now name.now made.old) }
{
    let number = short(made.monitors.len());
    let name = Text::of(alloc, name.as_str())?;
    let globals = mem::replace(&mut made.globals, Globals::new(alloc));
    let monitor = Monitor {
        name,
        globals,
        onload: action_number(table, number, "onload").unwrap_or(0),
        ondie: action_number(table, number, "ondie"),
    };
    made.monitors.push(monitor)
}

/// The members of a monitor, and then the monitor.
pub(crate) fn monitor(
    alloc: Global,
    table: &Table,
    decl: &MonitorDecl,
    made: &mut Made,
) -> Result<(), Refusal>
    ensures { Goes (monitor_read table.now decl.now) made.old made.new result }
{
    let reader = Reader {
        alloc,
        table,
        members: decl.members.as_slice(),
    };
    reader.members(made)?;
    add_monitor(alloc, table, &decl.name.text, made)?;
    Ok(())
}
