use epl_values::Values;

/// What a run of an instance needs of it.
#[derive(Drop)]
pub struct Lent {
    pub monitor: u16,
    pub globals: Values,
}
