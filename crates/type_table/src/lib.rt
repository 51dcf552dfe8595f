//! The declarations of a program: event types, the heads of monitors and actions, and the names that are visible.
#![tactic(auto)]

mod chains;
mod checking;
mod depths;
mod facts;
mod fault;
mod gathered;
mod heads;
mod kinds;
mod names;
mod pending;
mod scope;
mod table;
mod told;
mod types;
mod whole;
mod widths;

pub use fault::{CheckFault, Fault, Refusal};
pub use scope::{Scope, Seen, SeenKind, Seens, copy_known, copy_seen};
pub use table::{
    ActionHead, ActionHeads, GlobalHead, GlobalHeads, MonitorHead, MonitorHeads, ParamHead,
    ParamHeads, ResultHead, Table,
};
pub use types::{holds_link, is_reference, is_scalar, shape_of, short};
pub use whole::gather;
