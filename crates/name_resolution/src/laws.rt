ghost use Rattle.std.specs.Prelude.{List};
ghost use Rattle.epl_tree.specs.declared.unit.Unit.{Unit};
ghost use Rattle.stmt_check.specs.Programs.{IsProgram};
ghost use Rattle.typed_program.specs.declared.program.Program.{Program};
ghost use Rattle.name_resolution.specs.Resolves.{Resolves};

/// The typed program of files in which no fault is found is their trees with names resolved.
pub fn accepted_programs_resolve()
    ensures { (units : List Unit) (program : Program) → IsProgram units program → Resolves units program }
{}
