ghost use Rattle.std.specs.Prelude.{◌≡◌, ◌<◌, ◌^◌, IfOk, Some, length};
ghost use Rattle.fp_base.specs.Least.{IsLeast};
ghost use Rattle.fp_machine_rules.specs.Broken.{BrokenAsWhole, BrokenInside, MachineBroken};
ghost use Rattle.fp_machine_rules.specs.Forms.{IsLaid};
ghost use Rattle.fp_machines.specs.Found.{FindsSpellings};
ghost use Rattle.fp_machines.specs.Layout.{laid};
ghost use Rattle.fp_machines.specs.Outline.{outline};

use crate::laying::laid_over;
use crate::outlining::{outline, spellings_of};
use crate::standing::elements_behind;
use fp_base::{NoMemory, Place, Refusal, lesser};
use fp_machine_rules::{Item, as_whole, faults_inside};
use fp_tree::BehaviorElement;
use std::alloc::Global;
use std::collections::BTreeMap;

/// The least rule that a machine with a body breaks. None exactly where none is broken. `types` has for each element the number of the type of
/// the value that it declares, if it declares one; equal numbers are one type behind all aliases. A machine that nests too deep is refused
/// before a name in it is looked up, where its own name stands before all that is in it.
pub fn behavior_fault(
    alloc: Global,
    place: Place,
    elements: &[BehaviorElement],
    types: &[Option<u32>],
) -> Result<Option<Refusal>, NoMemory>
    requires { IsLaid (outline elements.now) }
    ensures { IfOk result (IsLeast (MachineBroken (laid place elements.now types.now))) }
{
    if elements.len() > u32::MAX as usize {
        return Err(NoMemory);
    }
    let spellings = spellings_of(alloc, elements)?;
    let outlines = outline(alloc, &spellings, elements)?;
    match as_whole(alloc, place, &outlines)? {
        Some(refusal) => beside(alloc, refusal, place, elements, types, spellings, &outlines),
        None => inside(alloc, place, elements, types, spellings, &outlines),
    }
}

/// The least rule of a machine that breaks one as a whole: this one, where all in the machine stands behind its name.
fn beside(
    alloc: Global,
    whole: Refusal,
    place: Place,
    elements: &[BehaviorElement],
    types: &[Option<u32>],
    spellings: BTreeMap<String, u32>,
    outlines: &[Item],
) -> Result<Option<Refusal>, NoMemory>
    requires short { length outlines.now < 2 ^ 32 }
    requires spellings { FindsSpellings elements.now spellings }
    requires outlines { outlines.now ≡ outline elements.now }
    requires laid { IsLaid (outline elements.now) }
    requires whole { IsLeast (BrokenAsWhole place (outline elements.now)) (Some whole) }
    ensures { IfOk result (IsLeast (MachineBroken (laid place elements.now types.now))) }
{
    if elements_behind(place, elements) {
        return Ok(Some(whole));
    }
    let within = inside(alloc, place, elements, types, spellings, outlines)?;
    Ok(lesser(Some(whole), within))
}

/// The least rule that is broken in the body.
fn inside(
    alloc: Global,
    place: Place,
    elements: &[BehaviorElement],
    types: &[Option<u32>],
    spellings: BTreeMap<String, u32>,
    outlines: &[Item],
) -> Result<Option<Refusal>, NoMemory>
    requires short { length outlines.now < 2 ^ 32 }
    requires spellings { FindsSpellings elements.now spellings }
    requires outlines { outlines.now ≡ outline elements.now }
    requires laid { IsLaid (outline elements.now) }
    ensures { IfOk result (IsLeast (BrokenInside (laid place elements.now types.now))) }
{
    let machine = laid_over(alloc, place, elements, types, spellings, outlines)?;
    faults_inside(alloc, &machine)
}
