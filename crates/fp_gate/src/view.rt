use crate::booked::Entry;
use std::collections::LinkedList;

/// What a pass left, by its number, and the name that it had.
pub struct Kept<N, I> {
    pub name: Option<N>,
    pub number: u32,
    pub left: LinkedList<Entry<I>>,
}

/// What a seat knows. It exists in proofs alone: no value of it is made, so its numbers have no bound.
pub struct View<N, I> {
    /// None where the view is spent.
    pub name: Option<N>,
    pub number: u32,
    /// What this pass left.
    pub left: LinkedList<Entry<I>>,
    /// What the passes left whose views were joined into this one.
    pub others: LinkedList<Kept<N, I>>,
    /// The tickets count without end here: the word has the ticket modulo 2^64.
    pub ticket: Option<u64>,
    pub in_turn: bool,
    pub turns: u64,
    /// The history that it last saw.
    pub base: LinkedList<Entry<I>>,
    /// How many numbers were made, at the first view, and else 0.
    pub made: u64,
}
