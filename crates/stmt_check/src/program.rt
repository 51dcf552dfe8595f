ghost use Rattle.std.specs.Prelude.{◌≡◌, ◌≤◌, ◌<◌, length};
ghost use Rattle.stmt_check.specs.Programs.{Checks, ReadsFiles, GoesFile, declaration_read, declarations_read, fault_in};
ghost use Rattle.stmt_check.specs.Steps.{Goes};

use crate::made::Made;
use crate::member::monitor;
use epl_tree::{Declaration, Declarations, Units};
use std::alloc::Global;
use type_table::{CheckFault, Refusal, Table, gather};
use typed_program::{Actions, Globals, Monitors, Program, Sites};

fn declaration(
    alloc: Global,
    table: &Table,
    declared: &Declaration,
    made: &mut Made,
) -> Result<(), Refusal>
    ensures { Goes (declaration_read table.now declared.now) made.old made.new result }
{
    match declared {
        Declaration::Event(_) => Ok(()),
        Declaration::Monitor(decl) => monitor(alloc, table, decl, made),
    }
}

fn declarations(
    alloc: Global,
    table: &Table,
    declared: &Declarations,
    made: &mut Made,
) -> Result<(), Refusal>
    ensures { Goes (declarations_read table.now declared.now) made.old made.new result }
{
    'declared: for one in declared.as_slice() {
        declaration(alloc, table, one, made)?;
    }
    Ok(())
}

fn in_file(file: usize, refusal: Refusal) -> CheckFault
    requires { file < 4294967296 }
    ensures { result ≡ fault_in file refusal }
{
    match refusal {
        Refusal::Fault(fault) => CheckFault::Typing(fault.code, file as u32, fault.spot),
        Refusal::Memory => CheckFault::Memory,
    }
}

fn unit(
    alloc: Global,
    table: &Table,
    file: usize,
    declared: &Declarations,
    made: &mut Made,
) -> Result<(), CheckFault>
    requires { file < 4294967296 }
    ensures { GoesFile table.now file declared.now made.old made.new result }
{
    match declarations(alloc, table, declared, made) {
        Ok(()) => Ok(()),
        Err(refusal) => Err(in_file(file, refusal)),
    }
}

fn files(alloc: Global, table: &Table, units: &Units) -> Result<Made, CheckFault>
    requires { length units.now ≤ 4294967295 }
    ensures { ReadsFiles table.now result units.now }
{
    let mut made = Made {
        monitors: Monitors::new(alloc),
        globals: Globals::new(alloc),
        actions: Actions::new(alloc),
        sites: Sites::new(alloc),
    };
    'files: for (file, one) in units.as_slice().iter().enumerate() {
        unit(alloc, table, file, &one.declarations, &mut made)?;
    }
    Ok(made)
}

/// The typed program of the files, or their first typing fault.
pub fn check(alloc: Global, units: &Units) -> Result<Program, CheckFault>
    requires { length units.now ≤ 4294967295 }
    ensures { Checks result units.now }
{
    let table = gather(alloc, units)?;
    let made = files(alloc, &table, units)?;
    Ok(Program {
        types: table.types,
        monitors: made.monitors,
        actions: made.actions,
        sites: made.sites,
    })
}
