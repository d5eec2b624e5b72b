use crate::name::{Name, Qual};
use crate::type_name::TypeName;
use fp_base::{Boxed, Row, Span, Text};

/// A state machine. States nest without a limit, so what stands in it is laid out flat, and no call nests with them.
#[derive(Drop)]
pub struct Machine {
    pub name: Name,
    /// None where the machine is written elsewhere.
    pub behavior: Option<Behavior>,
    pub at: Span,
    pub note: Text,
}

/// What stands in a machine: each element before those that stand in it, otherwise in source order.
#[derive(Drop)]
pub struct Behavior {
    pub elements: Row<BehaviorElement>,
    pub lines: Row<NoteLine>,
    /// Where its closing brace stands.
    pub closing: Span,
}

/// An element of a machine or of a state.
#[derive(Drop)]
pub struct BehaviorElement {
    pub form: ElementForm,
    /// The position of the state that it stands in, or None directly in the machine.
    pub parent: Option<usize>,
    /// Of a state, up to its name.
    pub at: Span,
}

/// A line of the annotation of the element at a position. The lines of one element stand in their order.
#[derive(Drop)]
pub struct NoteLine {
    pub of: usize,
    pub line: Text,
}

/// What an element is. What takes more room than a state's name is boxed.
#[derive(Drop)]
pub enum ElementForm {
    State(Name),
    Choice(Boxed<Choice>),
    Initial(Boxed<Goto>),
    Signal(Boxed<TypedName>),
    Action(Boxed<TypedName>),
    Guard(Boxed<TypedName>),
    On(Boxed<OnSignal>),
    Entry(Do),
    Exit(Do),
}

/// A guard that decides where it goes.
#[derive(Drop)]
pub struct Choice {
    pub name: Name,
    pub guard: Name,
    /// Where it goes when the guard holds.
    pub met: Goto,
    /// And when it doesn't.
    pub unmet: Goto,
}

/// A name that may have a type.
#[derive(Drop)]
pub struct TypedName {
    pub name: Name,
    pub of: Option<TypeName>,
}

/// What a state does on a signal, where the guard holds or there is none.
#[derive(Drop)]
pub struct OnSignal {
    pub signal: Name,
    pub guard: Option<Name>,
    pub transition: Transition,
}

/// What is done on a signal: something is entered, or the state is kept.
#[derive(Drop)]
pub enum Transition {
    Goto(Goto),
    Do(Do),
}

/// A state or choice that is entered, and what is done on the way.
#[derive(Drop)]
pub struct Goto {
    pub actions: Option<Do>,
    pub target: Qual,
    pub at: Span,
}

/// Actions in their order.
#[derive(Drop)]
pub struct Do {
    pub actions: Row<ActionUse>,
    pub at: Span,
}

/// An action in a list.
#[derive(Drop)]
pub struct ActionUse {
    pub name: Name,
    pub note: Text,
}
