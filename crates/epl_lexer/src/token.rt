use epl_values::{List, Text};
use span_text::Spot;

/// What a token is. A name's, number's and keyword's text is its slice of the source; a string's is that with
/// the quotes taken off and the escapes resolved.
#[derive(Debug, Drop)]
pub enum Kind {
    Name(Text),
    Integer(Text),
    Decimal(Text),
    Quoted(Text),
    /// Its place in `KEYWORDS`.
    Keyword(u8),
    /// Its place in `SIGNS`.
    Sign(u8),
    /// The end of the text.
    End,
}

/// A token: what it is, the bytes of the source from `from` up to before `to`, and where it stands.
#[derive(Debug, Drop)]
pub struct Token {
    pub kind: Kind,
    pub from: u32,
    pub to: u32,
    pub spot: Spot,
}

/// The tokens of a text, in order; the last one, and no other, is the end.
pub type Tokens = List<Token>;

/// The keywords in the order of their numbers.
pub const KEYWORDS: [&str; 42] = [
    "action",
    "all",
    "and",
    "as",
    "at",
    "boolean",
    "break",
    "completed",
    "context",
    "continue",
    "dictionary",
    "die",
    "else",
    "event",
    "false",
    "for",
    "if",
    "in",
    "integer",
    "listener",
    "log",
    "monitor",
    "new",
    "not",
    "on",
    "or",
    "print",
    "return",
    "returns",
    "route",
    "send",
    "sequence",
    "spawn",
    "string",
    "then",
    "to",
    "true",
    "unmatched",
    "wait",
    "while",
    "within",
    "xor",
];

/// The signs in the order of their numbers.
pub const SIGNS: [&str; 23] = [
    "{", "}", "(", ")", "[", "]", ";", ",", ".", ":", ":=", "=", "!=", "<", "<=", ">", ">=", "+",
    "-", "*", "/", "%", "->",
];
