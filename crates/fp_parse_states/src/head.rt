use fp_base::{Span, Text};
use fp_tree::ElementForm;

/// An element up to where others may stand in it.
#[derive(Drop)]
pub struct Head {
    pub form: ElementForm,
    pub at: Span,
}

/// What a body is read by.
#[derive(Drop)]
pub enum BodyPiece {
    Open,
    Close(Span),
    Separator,
    /// A line of the annotation of what follows.
    Before(Text),
    /// A line of the annotation of what stands before.
    After(Text),
    Element(Head),
}

/// What was read last of a body.
#[derive(Clone, Copy, PartialEq, Eq)]
pub enum LastRead {
    /// An opening brace.
    Opening,
    /// A separator, and maybe annotations of what stands before it.
    Separator,
    /// An annotation of what follows.
    NoteBefore,
    /// A state's name.
    StateName,
    /// A whole element, and maybe annotations of it.
    Whole,
}
