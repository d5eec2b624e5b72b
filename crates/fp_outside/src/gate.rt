/// What a running plant passes at each step. Neither call changes anything of the plant.
pub trait Gate: Sync {
    /// Called once in each step that takes an instance's cell, while this actor holds the cell.
    fn hold(&self, actor: u32, instance: u32);

    /// Called after each step of an actor, outside every cell, with the number of steps that it has taken.
    fn pass(&self, actor: u32, taken: u64);
}

/// The gate at which nothing happens.
#[derive(Clone, Copy)]
pub struct OpenGate;

impl Gate for OpenGate {
    fn hold(&self, _actor: u32, _instance: u32) {}

    fn pass(&self, _actor: u32, _taken: u64) {}
}
