//! The tokens of texts and of bytes.

ghost use Rattle.std.specs.Prelude.{◌<◌, length};
ghost use Rattle.epl_lexer.specs.Tokens.{TellsTokens, TellsTokensOfBytes};

use epl_lexer::{LexFault, Tokens};
use span_text::Spot;
use std::alloc::Global;
use std::str;

/// The tokens of a text, the last of which is the end, or where it has none. Places are bytes of the text.
pub fn tokens_of(alloc: Global, text: &str) -> Result<Tokens, LexFault>
    requires { length text.now < 4294967295 }
    ensures { TellsTokens text.now result }
{
    epl_lexer::tokens_of(alloc, text)
}

/// The same for bytes; where they are not UTF-8 the fault is at line 1, column 1.
pub fn tokens_of_bytes(alloc: Global, bytes: &[u8]) -> Result<Tokens, LexFault>
    requires { length bytes.now < 4294967295 }
    ensures { TellsTokensOfBytes bytes.now result }
{
    match str::from_utf8(bytes) {
        Ok(text) => tokens_of(alloc, text),
        Err(_) => Err(LexFault::Lex(Spot::start())),
    }
}
