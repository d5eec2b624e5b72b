use fp_outside::Gate;

/// A gate as a step passes it: nothing is said of whether it may be shared.
pub trait Passage {
    fn held(&self, actor: u32, instance: u32);

    fn passed(&self, actor: u32, taken: u64);
}

impl<G: Gate> Passage for G {
    fn held(&self, actor: u32, instance: u32) {
        self.hold(actor, instance);
    }

    fn passed(&self, actor: u32, taken: u64) {
        self.pass(actor, taken);
    }
}
