use crate::port::Given;
use fp_base::{Place, Text};

/// An instance of a component.
#[derive(Drop)]
pub struct WrittenInstance {
    /// Its qualified name.
    pub name: Text,
    /// Where its own name begins.
    pub at: Place,
    /// The position of its component among the components of the source.
    pub component: u32,
    /// The base id.
    pub base: Given,
    /// The queue's size, in messages.
    pub queue: Option<Given>,
    /// The stack's size, in bytes.
    pub stack: Option<Given>,
    pub priority: Option<Given>,
    /// The number of the processor.
    pub cpu: Option<Given>,
}
