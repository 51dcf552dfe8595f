//! The signs and keywords of types and expressions, by their places in the lexer's tables.

pub const BRACE: u8 = 0;

pub const CLOSING_BRACE: u8 = 1;

pub const PARENTHESIS: u8 = 2;

pub const CLOSING_PARENTHESIS: u8 = 3;

pub const BRACKET: u8 = 4;

pub const CLOSING_BRACKET: u8 = 5;

pub const COMMA: u8 = 7;

pub const POINT: u8 = 8;

pub const COLON: u8 = 9;

pub const EQUALS: u8 = 11;

pub const DIFFERS: u8 = 12;

pub const LESS: u8 = 13;

pub const AT_MOST: u8 = 14;

pub const GREATER: u8 = 15;

pub const AT_LEAST: u8 = 16;

pub const PLUS: u8 = 17;

pub const MINUS: u8 = 18;

pub const TIMES: u8 = 19;

pub const DIVIDED: u8 = 20;

pub const REMAINDER: u8 = 21;

pub const AND: u8 = 2;

pub const BOOLEAN: u8 = 5;

pub const CONTEXT: u8 = 8;

pub const DICTIONARY: u8 = 10;

pub const FALSE: u8 = 14;

pub const INTEGER: u8 = 18;

pub const LISTENER: u8 = 19;

pub const NEW: u8 = 22;

pub const NOT: u8 = 23;

pub const OR: u8 = 25;

pub const SEQUENCE: u8 = 31;

pub const STRING: u8 = 33;

pub const TRUE: u8 = 36;

pub const XOR: u8 = 41;
