use body_runs::BodyRunner;
use std::alloc::Global;
use typed_program::Program;

/// What goes along while a context handles an entry: what runs bodies, and the program.
#[derive(Drop)]
pub struct Around<'a, R: BodyRunner> {
    pub runner: &'a R,
    pub alloc: Global,
    pub program: &'a Program,
}
