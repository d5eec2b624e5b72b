//! What every crate speaks of: rows, texts and boxes that contracts see as their content, values and formats, places in sources, and refusals.
#![tactic(auto)]

mod boxed;
mod format;
mod least;
mod memory;
mod place;
mod print;
mod refusal;
mod row;
mod rule;
mod text;
mod value;

pub use boxed::Boxed;
pub use format::{Format, FormatPiece};
pub use least::{earlier, lesser, refusal_at, refusal_if, stands_no_later};
pub use memory::NoMemory;
pub use place::{Place, Span, place_after, place_of};
pub use print::{push_quoted, push_value};
pub use refusal::{PathStop, Refusal, Stop};
pub use row::Row;
pub use rule::Rule;
pub use text::Text;
pub use value::{MemberValue, Value};
