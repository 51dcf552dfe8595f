//! Tokens of a program's text.
#![tactic(auto)]

mod bytes;
mod fault;
mod lexer;
mod place;
mod quoted;
mod sign;
mod space;
mod table;
mod token;
mod word;

pub use fault::LexFault;
pub use lexer::tokens_of;
pub use token::{KEYWORDS, Kind, SIGNS, Token, Tokens};
