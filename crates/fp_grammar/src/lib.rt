//! Typed grammars over any tokens: the languages that they spell, the test for the tokens of lookahead, and what a parse answers.
#![tactic(auto)]

mod halt;
mod laws;

pub use halt::Halt;
pub use laws::{
    Alike, Predictive, Rewritten, Stepwise, left_answers, longest_prefix, node_or_break, one_break,
    one_node, piece_by_piece, same_answers, shared_beginning,
};
