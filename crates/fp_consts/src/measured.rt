ghost use Rattle.std.specs.Prelude.{◌≡◌, IfOk};
ghost use Rattle.fp_consts.specs.Examined.{leaf_of};

use fp_base::{NoMemory, Value};
use std::alloc::Global;

/// A value with its leaves and levels.
#[derive(Drop)]
pub struct Measured {
    pub value: Value,
    pub leaves: u32,
    pub levels: u32,
}

impl Measured {
    pub fn copy(&self, alloc: Global) -> Result<Measured, NoMemory>
        ensures { IfOk result (λ copy. copy ≡ self.now) }
    {
        Ok(Measured {
            value: self.value.copy(alloc)?,
            leaves: self.leaves,
            levels: self.levels,
        })
    }
}

/// A value without parts.
pub fn leaf(value: Value) -> Measured
    ensures { result ≡ leaf_of value }
{
    Measured {
        value,
        leaves: 1,
        levels: 1,
    }
}
