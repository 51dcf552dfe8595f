use crate::run::run_action;
use action_host::{End, Host};
use body_runs::BodyRunner;
use epl_values::Values;
use std::alloc::{AllocError, Global};
use typed_program::Program;

/// Runs the bodies of any program over their trees.
pub struct TreeWalker;

impl BodyRunner for TreeWalker {
    ghost serves = { λ walker program. Unit {0} };

    fn run_action<H: Host>(
        &self,
        alloc: Global,
        program: &Program,
        body: u16,
        globals: &mut Values,
        locals: Values,
        host: &mut H,
    ) -> Result<End, AllocError> {
        run_action(alloc, program, body, globals, locals, host)
    }
}
