/// Where the lists of actions of a level stand: a caller's own list; or what the entry of the trace at `entry` puts before the
/// actor, where a signal's value is that of the entry at `value`.
#[derive(Clone, Copy)]
pub enum Source {
    Own,
    Entry { entry: usize, value: usize },
}

/// The place of an action: in one of the lists of a source.
#[derive(Clone, Copy)]
pub struct Position {
    pub source: Source,
    pub list: usize,
    pub action: usize,
}

/// Whether a level begins a frame, and how that was opened; a frame that an arrival opened has the place of the call that it
/// answers. A level inside a frame stands before the next lower one.
#[derive(Clone, Copy)]
pub enum Base {
    Inside,
    Own,
    Arrived(Option<Position>),
    Taken,
}

/// What is left of the lists of one source: from the action at `next` on. To the first of these lists the bindings from
/// `first` up to `past` belong.
#[derive(Clone, Copy)]
pub struct Level {
    pub base: Base,
    pub next: Position,
    pub first: usize,
    pub past: usize,
}

/// A name, which is that of the action at `name`, bound to the value of the entry of the trace at `value`.
#[derive(Clone, Copy)]
pub struct Binding {
    pub name: Position,
    pub value: usize,
}
