//! The signs and keywords of statements and declarations, by their places in the lexer's tables.

pub const BRACE: u8 = 0;

pub const CLOSING_BRACE: u8 = 1;

pub const PARENTHESIS: u8 = 2;

pub const CLOSING_PARENTHESIS: u8 = 3;

pub const BRACKET: u8 = 4;

pub const CLOSING_BRACKET: u8 = 5;

pub const SEMICOLON: u8 = 6;

pub const COMMA: u8 = 7;

pub const POINT: u8 = 8;

pub const ASSIGNS: u8 = 10;

pub const AT: u8 = 4;

pub const BREAK: u8 = 6;

pub const CONTINUE: u8 = 9;

pub const DIE: u8 = 11;

pub const ELSE: u8 = 12;

pub const FOR: u8 = 15;

pub const IF: u8 = 16;

pub const IN: u8 = 17;

pub const LOG: u8 = 20;

pub const ON: u8 = 24;

pub const PRINT: u8 = 26;

pub const RETURN: u8 = 27;

pub const ROUTE: u8 = 29;

pub const SEND: u8 = 30;

pub const SPAWN: u8 = 32;

pub const THEN: u8 = 34;

pub const TO: u8 = 35;

pub const WHILE: u8 = 39;

pub const ACTION: u8 = 0;

pub const EVENT: u8 = 13;

pub const MONITOR: u8 = 21;

pub const RETURNS: u8 = 28;
