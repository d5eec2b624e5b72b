use fp_base::{Place, Row};

/// Where a step goes: nowhere, since it has no `enter`; to a name that means nothing; or to the item at a position.
#[derive(Clone, Copy)]
pub enum Target {
    Stays,
    Undefined,
    To(u32),
}

/// What an item declares for its machine.
#[derive(Clone, Copy)]
pub enum Declaration {
    Signal(u32),
    Action(u32),
    Guard(u32),
}

/// What an item is. A name is the number of its spelling.
#[derive(Clone, Copy)]
pub enum Form {
    State(u32),
    Choice {
        name: u32,
        met: Target,
        unmet: Target,
    },
    Initial(Target),
    /// The signal's name, and the position of the item that declares it if one does.
    On {
        signal: u32,
        means: Option<u32>,
        target: Target,
    },
    Entry,
    Exit,
    Declares(Declaration),
}

/// An item of a machine, and the position of the state that it stands in. The machine's own items have none.
#[derive(Clone, Copy)]
pub struct Item {
    pub form: Form,
    pub parent: Option<u32>,
    /// Of what has a name the place of its name, of the others that of their first byte.
    pub place: Place,
}

/// What a name in an item means: nothing; what takes no value; or an action or a guard that takes a value of a type.
#[derive(Clone, Copy)]
pub enum Meaning {
    Nothing,
    Plain,
    Typed(u32),
}

/// A use of a signal, an action, a guard, a state or a choice, and the position of the item that it stands in.
#[derive(Clone, Copy)]
pub struct Use {
    pub item: u32,
    pub means: Meaning,
    pub place: Place,
}

/// A machine with a body, laid out flat: each item behind the state that it stands in.
#[derive(Drop)]
pub struct LaidMachine {
    /// The place of its name.
    pub place: Place,
    pub items: Row<Item>,
    /// For each item the type of the value of the signal that it declares, if it has one. Types have one number where they are one type behind
    /// their aliases.
    pub types: Row<Option<u32>>,
    pub uses: Row<Use>,
}
