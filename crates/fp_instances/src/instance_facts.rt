use fp_base::Place;
use fp_tables::Queueing;
use fp_written_parts::Given;

/// What the rules that an instance of a component can break by itself look at.
#[derive(Clone, Copy)]
pub struct InstanceFacts {
    /// Where its name begins.
    pub at: Place,
    /// Its component's.
    pub queueing: Queueing,
    /// The greatest id or opcode of its component, if it has one.
    pub top: Option<u32>,
    /// The base id.
    pub base: Given,
    /// The queue's size, in messages.
    pub queue: Option<Given>,
    /// The stack's size, in bytes.
    pub stack: Option<Given>,
    pub priority: Option<Given>,
    /// The number of the processor.
    pub cpu: Option<Given>,
}
