//! What parsers are put together from: parts, each with its grammar, that are proved once for all languages.
#![tactic(auto)]

mod choices;
mod leaves;
mod lists;
mod notes;
mod pieces;
mod words;

pub use choices::Either;
pub use leaves::{AtMark, AtWord, Leaf, OneLeaf, OneName, OneText, QualifiedName};
pub use lists::{AtLeastOne, Element, Listed};
pub use notes::{after_lines, appended, before_lines, join};
pub use pieces::{After, Behind, Closed, Made, Make, Maybe, NodeOf, Piece, Seq};
pub use words::{
    Parsed, expect_mark, expect_name, expect_word, literal_string, mark_at, qualified_name,
    separator_at, skip_mark, word_at,
};
