use crate::node::{Lock, Node};

/// What stands in the graph in which cycles are looked for: a handler, an action with its position and its handler's, or a guard or turn.
#[derive(Clone, Copy, PartialEq, Eq, PartialOrd, Ord)]
pub enum Vertex {
    Handler(Node),
    Action { handler: usize, action: usize },
    Lock(Lock),
}
