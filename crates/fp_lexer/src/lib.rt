//! The lexer: from the bytes of a source to its tokens.
#![tactic(auto)]

mod bytes;
mod lexing;
pub mod mark;
mod newlines;
mod pieces;
pub mod reserved;
mod scan;
mod shape;
mod token;
mod words;

pub use lexing::{lex, one_lexing, places_rise, same_words, spans_rise, worked_strings};
pub use token::{Token, Word};
