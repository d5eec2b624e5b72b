use crate::bells::Bells;
use fp_plant::Passage;
use std::cell::Cell;
use std::sync::Wait;

/// A gate that rings for the steps of one hand, and knows where its last turn was and what it had heard from there.
#[derive(Drop)]
pub struct Listener<'g, P> {
    gate: &'g P,
    bells: &'g Bells,
    instance: Cell<u32>,
    heard: Cell<u64>,
}

impl<'g, P> Listener<'g, P> {
    pub fn new(gate: &'g P, bells: &'g Bells) -> Listener<'g, P> {
        Listener {
            gate,
            bells,
            instance: Cell::new(0),
            heard: Cell::new(0),
        }
    }

    /// Waits until another hand has taken a step there. Says no where none is left who could.
    pub fn wait<R: Wait>(&self, rt: &R) -> bool {
        self.bells.wait(rt, self.instance.get(), self.heard.get())
    }
}

impl<'g, P: Passage> Passage for Listener<'g, P> {
    // Whoever steps rings outside the cell, so what it makes possible after this turn is rung for after this.
    fn held(&self, actor: u32, instance: u32) {
        self.instance.set(instance);
        self.heard.set(self.bells.rings(instance));
        self.gate.held(actor, instance);
    }

    // The hand may be held up at the gate, so it rings first.
    fn passed(&self, actor: u32, taken: u64) {
        self.bells.ring(self.instance.get());
        self.gate.passed(actor, taken);
    }
}
