/// What the event types hold at any depth, by their numbers: which hold a context or a listener, how many fields they have, and
/// which may be in a cycle.
#[derive(Drop)]
pub struct Depths {
    pub holding: Vec<bool>,
    pub widths: Vec<u32>,
    pub pending: Vec<bool>,
}
