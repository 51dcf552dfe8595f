use term_meaning::Stimulus;
use term_operands::Origin;

/// What comes to an event expression, and what it stands over then.
#[derive(Clone, Copy)]
pub struct Moment<'a, 'b> {
    pub origin: Origin<'a>,
    pub stimulus: &'b Stimulus,
}
