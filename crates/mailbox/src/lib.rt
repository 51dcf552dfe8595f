//! Mailboxes between threads: each has passes for its senders and one for its taker, and what a sender posts is taken once and in order.
#![tactic(auto)]

mod closing;
mod creating;
mod mailbox;
mod passes;
mod posting;
mod rest;
mod rule;
mod sent;

pub use creating::{Made, create};
pub use mailbox::Mailbox;
pub use passes::{SendPass, SendPasses, TakePass};
pub use posting::{Empty, Full};
pub use rest::Rest;
pub use sent::Sent;
