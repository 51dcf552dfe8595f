//! That a call does what a run of a body means, how such calls are put together, and the calls on a host.
#![tactic(auto)]

mod host_calls;
mod stop;

pub use host_calls::{
    current, listen, log, make_context, pay, pay_cost, perform, print, quit, route, send,
    spawn_here, spawn_there, subscribe, unsubscribe,
};
pub use stop::Stop;
