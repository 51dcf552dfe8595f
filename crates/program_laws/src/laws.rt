ghost use Rattle.std.specs.Prelude.{List};
ghost use Rattle.epl_tree.specs.declared.unit.Unit.{Unit};
ghost use Rattle.stmt_check.specs.Programs.{IsProgram};
ghost use Rattle.typed_program.specs.declared.program.Program.{Program};
ghost use Rattle.typed_program.specs.Typed.{Typed};

/// The program of files in which no fault is found is well typed: names are numbers of what is there, and expressions, locals
/// and globals have their shapes; no rule behind a code is broken, and the limits hold.
pub fn accepted_programs_are_typed()
    ensures { (units : List Unit) (program : Program) → IsProgram units program → Typed program }
{}
