//! Where the first form of the language stands that isn't built yet. These aren't built: `spawn`, `route`, `send`, `monitor.` and
//! `context`.
#![tactic(auto)]

mod events;
mod expressions;
mod statements;
mod units;

pub use units::unbuilt;
