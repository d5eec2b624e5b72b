ghost use Rattle.std.specs.Prelude.{◌≡◌, ◌↔◌, ℕ, Option, IsTrue, IfOk};
ghost use Rattle.fp_tables.specs.Sound.{IsSoundFor};
ghost use Rattle.fp_sound_model.specs.Parts.{StructurePasses, IsSoundBeside};

use crate::parts::parts_are_sound;
use crate::placing::positions_lie;
use crate::ranges::{all_numbers_are_in_range, ranges_are_apart};
use crate::topologies::is_sound_with;
use fp_base::NoMemory;
use fp_sound_machines::machines_are_sound;
use fp_tables::{Model, tops_of};
use std::alloc::Global;

/// Whether a model's positions, instances and machines are sound.
fn structure_is_sound(alloc: Global, model: &Model) -> Result<bool, NoMemory>
    ensures { IfOk result (λ sound. IsTrue sound ↔ StructurePasses model.now) }
{
    let tops = tops_of(alloc, model.components.as_slice())?;
    let positions = positions_lie(model);
    let ranges = ranges_are_apart(alloc, model, tops.as_slice())?;
    let numbers = all_numbers_are_in_range(model, tops.as_slice(), model.instances.as_slice());
    let machines = machines_are_sound(alloc, model.types.as_slice(), model.machines.as_slice())?;
    Ok(positions & ranges & numbers & machines)
}

fn is_sound_beside(alloc: Global, model: &Model, topology: Option<u32>) -> Result<bool, NoMemory>
    ensures { IfOk result (λ sound. IsTrue sound ↔ IsSoundBeside model.now topology) }
{
    match topology {
        Some(at) => match model.topologies.get(at as usize) {
            Some(topology) => is_sound_with(alloc, model, topology),
            None => Ok(false),
        },
        None => Ok(true),
    }
}

/// A model that is tested.
pub trait SoundModel {
    /// What it is to be sound, by itself or with the topology at a position.
    ghost is_sound_for: { Self → Option ℕ → Type 0 };

    /// Whether the model is sound, by itself or with one of its topologies.
    fn is_sound(&self, alloc: Global, topology: Option<u32>) -> Result<bool, NoMemory>
        ensures { IfOk result (λ sound. IsTrue sound ↔ is_sound_for self.now topology) };
}

impl SoundModel for Model {
    ghost is_sound_for = { IsSoundFor };

    fn is_sound(&self, alloc: Global, topology: Option<u32>) -> Result<bool, NoMemory> {
        if !parts_are_sound(alloc, self)? {
            return Ok(false);
        }
        let structure = structure_is_sound(alloc, self)?;
        let beside = is_sound_beside(alloc, self, topology)?;
        Ok(structure & beside)
    }
}
