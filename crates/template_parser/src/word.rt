//! The signs and keywords of event expressions, by their places in the lexer's tables.

pub const PARENTHESIS: u8 = 2;

pub const CLOSING_PARENTHESIS: u8 = 3;

pub const BRACKET: u8 = 4;

pub const CLOSING_BRACKET: u8 = 5;

pub const COMMA: u8 = 7;

pub const COLON: u8 = 9;

pub const EQUALS: u8 = 11;

pub const LESS: u8 = 13;

pub const AT_MOST: u8 = 14;

pub const GREATER: u8 = 15;

pub const AT_LEAST: u8 = 16;

pub const TIMES: u8 = 19;

pub const ARROW: u8 = 22;

pub const ALL: u8 = 1;

pub const AND: u8 = 2;

pub const AS: u8 = 3;

pub const COMPLETED: u8 = 7;

pub const IN: u8 = 17;

pub const NOT: u8 = 23;

pub const OR: u8 = 25;

pub const UNMATCHED: u8 = 37;

pub const WAIT: u8 = 38;

pub const WITHIN: u8 = 40;

pub const XOR: u8 = 41;
