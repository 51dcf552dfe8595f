//! The syntax of programs as a whole: tokens of texts, trees of tokens, and the trees of program files.
#![tactic(auto)]

mod events;
mod expressions;
mod fault;
mod files;
mod laws;
mod lexing;
mod programs;

pub use decl_parser::discard;
pub use epl_lexer::{LexFault, Tokens};
pub use event_parser::discard_event;
pub use events::event_expression;
pub use expr_parser::{discard_expression, discard_type};
pub use expressions::expression;
pub use fault::{ParseFault, SyntaxFault};
pub use files::units;
pub use laws::{
    fault_has_one_place, files_have_one_fault, files_have_one_list_of_trees,
    syntax_fault_has_one_place, tokens_are_few, tokens_end_once,
};
pub use lexing::{tokens_of, tokens_of_bytes};
pub use programs::unit;
