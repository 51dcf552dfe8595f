ghost use Rattle.std.specs.Prelude.{◌≡◌, ◌≤◌, ◌<◌, length, IfOk};
ghost use Rattle.std.specs.List.{AllByRecursion};
ghost use Rattle.stmt_check.specs.Programs.{Checks};
ghost use Rattle.typed_program.specs.Typed.{Typed};
ghost use Rattle.evt_text.specs.Forms.{AreEventTypes};
ghost use Rattle.epl_syntax.specs.Trees.{TreesTold};
ghost use Rattle.program_reader.specs.Programs.{TellsProgram};
ghost use Rattle.program_reader.specs.Steps.{BuiltTold, ProgramTold, TreesRead};

use crate::ProgramFault;
use built_forms::unbuilt;
use epl_syntax::{SyntaxFault, discard, units};
use epl_tree::Units;
use epl_values::{Bytes, List};
use program_check::check;
use span_text::Spot;
use std::alloc::Global;
use type_table::CheckFault;
use typed_program::Program;

fn trees_of(alloc: Global, texts: &List<Bytes>) -> Result<Units, ProgramFault>
    requires each { AllByRecursion (λ bytes. length bytes < 4294967295) texts.now }
    requires few { length texts.now ≤ 64 }
    ensures told { TreesRead texts.now result }
    ensures few { IfOk result (λ trees. length trees ≤ 64) }
{
    match units(alloc, texts) {
        Ok(trees) => Ok(trees),
        Err(SyntaxFault::Lex(file, spot)) => Err(ProgramFault::Lex(file, spot)),
        Err(SyntaxFault::Syntax(file, spot)) => Err(ProgramFault::Syntax(file, spot)),
        Err(SyntaxFault::Memory) => Err(ProgramFault::Memory),
    }
}

/// The typed program of trees, which are let go.
fn checked(alloc: Global, units: Units) -> Result<Program, CheckFault>
    requires { length units ≤ 4294967295 }
    ensures told { Checks result units }
    ensures typed { IfOk result Typed }
{
    let told = check(alloc, &units);
    discard(units);
    told
}

fn built(form: Option<(u32, Spot)>, program: Program) -> Result<Program, ProgramFault>
    ensures { BuiltTold form program result }
{
    match form {
        None => Ok(program),
        Some((file, spot)) => {
            program_check::discard(program);
            Err(ProgramFault::Unbuilt(file, spot))
        }
    }
}

fn program_of(alloc: Global, units: Units) -> Result<Program, ProgramFault>
    requires { length units ≤ 64 }
    ensures { ProgramTold units result }
{
    let form = unbuilt(&units);
    match checked(alloc, units) {
        Ok(program) => built(form, program),
        Err(CheckFault::Typing(code, file, spot)) => Err(ProgramFault::Typing(code, file, spot)),
        Err(CheckFault::Memory) => Err(ProgramFault::Memory),
    }
}

/// The program of the bytes of files, or why there is none.
pub fn program_from(alloc: Global, texts: &List<Bytes>) -> Result<Program, ProgramFault>
    requires each { AllByRecursion (λ bytes. length bytes < 4294967295) texts.now }
    requires few { length texts.now ≤ 64 }
    ensures program { TellsProgram texts.now result }
    ensures typed { IfOk result Typed }
    ensures types { IfOk result (λ p. AreEventTypes p.types) }
    ensures monitors { IfOk result (λ p. length p.monitors ≤ 65535) }
{
    let units = trees_of(alloc, texts)?;
    program_of(alloc, units)
}
