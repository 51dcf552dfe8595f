use span_text::Spot;
use std::alloc::AllocError;
use thiserror::Error;

/// Why a text has no tokens.
#[derive(Debug, Drop, Error)]
pub enum LexFault {
    /// No token begins there, or a string or comment that isn't finished, or the bytes aren't UTF-8.
    #[error("no token at line {}, column {}", .0.line, .0.column)]
    Lex(Spot),
    #[error("no memory")]
    Memory,
}

impl From<AllocError> for LexFault {
    ghost use Rattle.std.specs.Prelude.{◌≡◌};
    ghost use Rattle.epl_lexer.specs.declared.fault.LexFault.TheVariants.{Memory as NoMemory};

    ghost from_gives = { λ _ e. e ≡ NoMemory };

    fn from(_: AllocError) -> LexFault {
        LexFault::Memory
    }
}
