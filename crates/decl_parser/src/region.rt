/// Where in a program file a piece of it stands.
#[derive(Clone, Copy, Debug, PartialEq, Eq)]
pub enum Region {
    /// Outside the monitors.
    Outside,
    /// In a monitor, outside its actions.
    Monitor,
    /// In the outermost block of an action.
    Action,
}
