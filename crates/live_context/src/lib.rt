//! A context that runs: the changes that it undergoes, each as it is defined.
#![tactic(auto)]

mod front;
mod instances;
mod lent;
mod listener;
mod listeners;
mod live;

pub use event_terms::StepOut;
pub use lent::Lent;
pub use listener::LiveListener;
pub use live::LiveContext;
