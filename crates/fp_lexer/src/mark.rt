//! The numbers of the marks: their places in the table.

pub const OPEN: u8 = 0;

pub const CLOSE: u8 = 1;

pub const OPEN_BRACKET: u8 = 2;

pub const CLOSE_BRACKET: u8 = 3;

pub const OPEN_BRACE: u8 = 4;

pub const CLOSE_BRACE: u8 = 5;

pub const TIMES: u8 = 6;

pub const OVER: u8 = 7;

pub const PLUS: u8 = 8;

pub const MINUS: u8 = 9;

pub const ARROW: u8 = 10;

pub const COMMA: u8 = 11;

pub const DOT: u8 = 12;

pub const COLON: u8 = 13;

pub const SEMICOLON: u8 = 14;

pub const EQUALS: u8 = 15;
