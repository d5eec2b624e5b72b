//! What is written of types, and how large they are by their forms alone.
#![tactic(auto)]

mod large;
mod laws;
mod order;
mod sizing;
mod written;

pub use large::large_types;
pub use laws::{of_size_or_too_large, one_size, order_serves, sized_is_on_no_cycle};
pub use order::{own_order, uses_earlier};
pub use sizing::{ends_in_integer, extents, is_few, is_sized, kind_extent};
pub use written::{Own, Size, TypeExtent, WrittenType};
