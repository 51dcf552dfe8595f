//! The top call: words and files in, a report and a record out.
#![tactic(auto)]

mod laws;
mod load;
mod messages;
mod refusal;
mod top;

pub use laws::promise_completes;
pub use refusal::Refusal;
pub use top::{Outcome, correlate_serial};
