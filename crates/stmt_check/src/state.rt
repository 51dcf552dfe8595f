use epl_values::Shapes;
use type_table::Scope;
use typed_program::Sites;

/// What goes through a body in order of the source.
#[derive(Drop)]
pub struct State {
    /// The names that are visible.
    pub scope: Scope,
    /// The locals of the body, behind its parameters.
    pub locals: Shapes,
    /// The number of its next local.
    pub next: u16,
    /// How many locals its action has, with its callbacks.
    pub whole: u16,
    /// The sites of the program so far.
    pub sites: Sites,
}
