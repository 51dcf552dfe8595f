use span_text::Spot;
use std::alloc::AllocError;
use thiserror::Error;

/// Why no tree was read.
#[derive(Clone, Copy, Debug, Drop, Error)]
pub enum ParseFault {
    /// No tree begins there.
    #[error("syntax")]
    Syntax(Spot),
    #[error("out of memory")]
    Memory,
}

/// Why files have no trees. A first number is the place of a file among them.
#[derive(Clone, Copy, Debug, Drop, Error)]
pub enum SyntaxFault {
    /// No token begins there in the first file without a tree, or its bytes aren't UTF-8.
    #[error("lex")]
    Lex(u32, Spot),
    /// The tokens of the first file without a tree are no program file; the place of the fault.
    #[error("syntax")]
    Syntax(u32, Spot),
    #[error("no memory")]
    Memory,
}

impl From<AllocError> for SyntaxFault {
    ghost use Rattle.std.specs.Prelude.{◌≡◌};
    ghost use Rattle.epl_syntax.specs.declared.fault.SyntaxFault.TheVariants.{Memory as NoMemory};

    ghost from_gives = { λ _ e. e ≡ NoMemory };

    fn from(_: AllocError) -> SyntaxFault {
        SyntaxFault::Memory
    }
}
