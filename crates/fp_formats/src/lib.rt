//! Formats: reading them from texts, and filling their fields with values.
#![tactic(auto)]

mod fault;
mod mark;
mod number;
mod reading;
mod rendering;
mod value_text;

pub use fault::FormatFault;
pub use reading::read_format;
pub use rendering::{print_plain, render};
