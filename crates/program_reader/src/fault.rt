use span_text::Spot;
use thiserror::Error;

/// Why files have no program. A first number is the place of a file among the program files.
#[derive(Clone, Copy, Debug, Drop, Error)]
pub enum ProgramFault {
    /// No token begins there in the first file without a tree, or its bytes aren't UTF-8.
    #[error("lex")]
    Lex(u32, Spot),
    /// The tokens of the first file without a tree are no program file; the place of the fault.
    #[error("syntax")]
    Syntax(u32, Spot),
    /// The first typing fault: the code, the file, and the spot.
    #[error("type {0}")]
    Typing(u8, u32, Spot),
    /// The program is accepted; the first form in it that isn't built.
    #[error("unbuilt")]
    Unbuilt(u32, Spot),
    #[error("no memory")]
    Memory,
}
