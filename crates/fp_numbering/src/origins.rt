/// Where the number of an end comes from: what is said of it, the first end of its pair where that takes a number, and whether no match pairs it.
#[derive(Clone, Copy)]
pub struct Origin {
    pub said: Option<i128>,
    pub first: Option<usize>,
    pub free: bool,
}
