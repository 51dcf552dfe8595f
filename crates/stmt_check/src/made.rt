use typed_program::{Actions, Globals, Monitors, Sites};

/// What is made of a program so far, with the globals of the monitor that is being read.
#[derive(Drop)]
pub struct Made {
    pub monitors: Monitors,
    pub globals: Globals,
    pub actions: Actions,
    pub sites: Sites,
}
