/// Where the targets of a vertex stand among those of all: from `first` on and before `end`.
#[derive(Clone, Copy)]
pub struct Stretch {
    pub first: usize,
    pub end: usize,
}
