ghost use Rattle.std.specs.Prelude.{IfOk};
ghost use Rattle.typed_program.specs.declared.program.Program.{Program};
ghost use Rattle.typed_program.specs.Typed.{Typed};
ghost use Rattle.typed_runs.specs.Bodies.{BodyFits, StillFit, head_of};
ghost use Rattle.body_runs.specs.Comes.{Comes};

use action_host::{End, Host};
use epl_values::Values;
use std::alloc::{AllocError, Global};
use typed_program::Program;

/// Runs bodies of programs, over any host.
pub trait BodyRunner {
    /// The programs whose bodies it runs.
    ghost serves: { Self → Program → Type 0 };

    /// Runs a body over the globals of its instance: an action by its number, and behind the actions the callbacks by the numbers
    /// of their sites. The locals are its arguments. Where there is no memory the globals have their shapes, and nothing else is
    /// said.
    fn run_action<H: Host>(
        &self,
        alloc: Global,
        program: &Program,
        body: u16,
        globals: &mut Values,
        locals: Values,
        host: &mut H,
    ) -> Result<End, AllocError>
        requires serves { serves self.now program.now }
        requires typed { Typed program.now }
        requires fits { BodyFits program.now body globals.old locals }
        ensures comes { IfOk result (λ end. Comes program.now body globals.old locals (H.told host.old) (H.told host.new) globals.new end) }
        ensures shapes { StillFit program.now globals.new (head_of program.now body) };
}
