//! Values in the text of an event file.
#![tactic(auto)]

mod entries;
mod fault;
mod laws;
mod numbers;
mod parts;
mod reading;
mod scanner;
mod values;

pub use fault::TextFault;
pub use laws::texts_are_read_again;
pub use numbers::number_at;
pub use parts::{behind_blanks, behind_name, behind_sign, digit_at};
pub use reading::value_at;
pub use scanner::Scanner;
