ghost use Rattle.std.specs.Prelude.{◌≤◌, length, IfOk};
ghost use Rattle.stmt_check.specs.Programs.{Checks};
ghost use Rattle.typed_program.specs.Typed.{Typed};
ghost use Rattle.name_resolution.specs.Resolves.{Resolves};

use epl_tree::Units;
use name_resolution::accepted_programs_resolve;
use program_laws::accepted_programs_are_typed;
use std::alloc::Global;
use type_table::CheckFault;
use typed_program::Program;

/// The typed program of the files, in their order, or the first of their typing faults with its code, the place of its file
/// among them and its place there (`docs/TYPES.md`). What is given is well typed: names are numbers of what is there, and
/// expressions, locals and globals have their shapes; no rule behind a code is broken, and the limits hold. It is the trees with names
/// resolved.
pub fn check(alloc: Global, units: &Units) -> Result<Program, CheckFault>
    requires { length units.now ≤ 4294967295 }
    ensures told { Checks result units.now }
    ensures typed { IfOk result Typed }
    ensures resolved { IfOk result (λ program. Resolves units.now program) }
{
    accepted_programs_are_typed();
    accepted_programs_resolve();
    stmt_check::check(alloc, units)
}

/// Lets a program go. That this can be done is proved here alone: who holds a program above hands it to this.
pub fn discard(_program: Program) {}
