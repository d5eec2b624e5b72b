ghost use Rattle.std.specs.Prelude.{◌≡◌, ◌<◌, ◌^◌, IfOk, List, Option, ℕ, length, map};
ghost use Rattle.fp_base.specs.Least.{IsLeast};
ghost use Rattle.fp_base.specs.declared.rule.Rule.TheVariants.{TypedValue, UndefinedInMachine};
ghost use Rattle.fp_machine_rules.specs.Broken.{AtUses, BrokenAsWhole, BrokenInside, BrokenItems, BrokenUses, IsUndefined, LacksValue, is_nothing};
ghost use Rattle.fp_machine_rules.specs.Forms.{IsLaid};
ghost use Rattle.fp_machine_rules.specs.Gathered.{AreGathered};
ghost use Rattle.fp_machine_rules.specs.declared.item.Use.{Use};

use crate::gathering::{Gathered, gather};
use crate::item::{Item, LaidMachine, Meaning, Use};
use crate::joining::{again_fault, declared_fault, way_fault, whole_fault};
use crate::placing::{item_places, least_flagged, use_places};
use crate::values::misgiven;
use fp_base::{NoMemory, Place, Refusal, Rule, lesser};
use std::alloc::Global;

/// The least rule that is broken in the body of a machine: by its items, or by what names in them mean. None exactly where none is broken. It
/// recurses nowhere, but what it takes grows with the depth of states: `as_whole` says first whether they are too deep.
pub fn faults_inside(alloc: Global, machine: &LaidMachine) -> Result<Option<Refusal>, NoMemory>
    requires laid { IsLaid machine.now.items }
    requires short { length machine.now.items < 2 ^ 32 }
    ensures { IfOk result (IsLeast (BrokenInside machine.now)) }
{
    let gathered = gather(alloc, machine.items.as_slice())?;
    fault_inside(alloc, machine, &gathered)
}

/// The least rule that a machine breaks as a whole, by the number of its initial transitions and its size. It is read without recursion, and
/// nothing that names mean counts for it.
pub fn as_whole(alloc: Global, place: Place, items: &[Item]) -> Result<Option<Refusal>, NoMemory>
    requires laid { IsLaid items.now }
    requires short { length items.now < 2 ^ 32 }
    ensures { IfOk result (IsLeast (BrokenAsWhole place items.now)) }
{
    let gathered = gather(alloc, items)?;
    whole_fault(alloc, place, items, &gathered)
}

fn fault_inside(
    alloc: Global,
    machine: &LaidMachine,
    gathered: &Gathered,
) -> Result<Option<Refusal>, NoMemory>
    requires laid { IsLaid machine.now.items }
    requires short { length machine.now.items < 2 ^ 32 }
    requires gathered { AreGathered machine.now.items (length machine.now.items) gathered.now.table.items gathered.now.top }
    ensures { IfOk result (IsLeast (BrokenInside machine.now)) }
{
    let item = fault_of_items(alloc, machine, gathered)?;
    let used = fault_of_uses(alloc, machine)?;
    Ok(lesser(item, used))
}

fn fault_of_items(
    alloc: Global,
    machine: &LaidMachine,
    gathered: &Gathered,
) -> Result<Option<Refusal>, NoMemory>
    requires laid { IsLaid machine.now.items }
    requires short { length machine.now.items < 2 ^ 32 }
    requires gathered { AreGathered machine.now.items (length machine.now.items) gathered.now.table.items gathered.now.top }
    ensures { IfOk result (IsLeast (BrokenItems machine.now.items)) }
{
    item_fault(alloc, machine.items.as_slice(), gathered)
}

fn item_fault(
    alloc: Global,
    items: &[Item],
    gathered: &Gathered,
) -> Result<Option<Refusal>, NoMemory>
    requires laid { IsLaid items.now }
    requires short { length items.now < 2 ^ 32 }
    requires gathered { AreGathered items.now (length items.now) gathered.now.table.items gathered.now.top }
    ensures { IfOk result (IsLeast (BrokenItems items.now)) }
{
    let places = item_places(alloc, items)?;
    let way = way_fault(alloc, items, gathered, &places)?;
    let again = again_fault(alloc, items, &places)?;
    let named = declared_fault(alloc, items, &places)?;
    let later = lesser(again, named);
    Ok(lesser(way, later))
}

fn fault_of_uses(alloc: Global, machine: &LaidMachine) -> Result<Option<Refusal>, NoMemory>
    ensures { IfOk result (IsLeast (BrokenUses machine.now.items machine.now.types machine.now.uses)) }
{
    use_fault(
        alloc,
        machine.items.as_slice(),
        machine.types.as_slice(),
        machine.uses.as_slice(),
    )
}

fn use_fault(
    alloc: Global,
    items: &[Item],
    types: &[Option<u32>],
    uses: &[Use],
) -> Result<Option<Refusal>, NoMemory>
    ensures { IfOk result (IsLeast (BrokenUses items.now types.now uses.now)) }
{
    let places = use_places(alloc, uses)?;
    let typed = typed_fault(alloc, items, types, uses, &places)?;
    let undefined = undefined_fault(alloc, uses, &places)?;
    Ok(lesser(typed, undefined))
}

fn typed_fault(
    alloc: Global,
    items: &[Item],
    types: &[Option<u32>],
    uses: &[Use],
    places: &[Place],
) -> Result<Option<Refusal>, NoMemory>
    requires { places.now ≡ map (λ (u : Use). u.place) uses.now }
    ensures { IfOk result (IsLeast (AtUses TypedValue uses.now (LacksValue items.now types.now uses.now))) }
{
    let flags = misgiven(alloc, items, types, uses)?;
    Ok(least_flagged(Rule::TypedValue, places, &flags))
}

fn undefined_fault(
    alloc: Global,
    uses: &[Use],
    places: &[Place],
) -> Result<Option<Refusal>, NoMemory>
    requires { places.now ≡ map (λ (u : Use). u.place) uses.now }
    ensures { IfOk result (IsLeast (AtUses UndefinedInMachine uses.now (IsUndefined uses.now))) }
{
    let flags = undefined_uses(alloc, uses)?;
    Ok(least_flagged(Rule::UndefinedInMachine, places, &flags))
}

fn undefined_uses(alloc: Global, uses: &[Use]) -> Result<Vec<bool>, NoMemory>
    ensures { IfOk result (λ flags. flags.items ≡ map (λ (u : Use). is_nothing u.means) uses.now) }
{
    Ok(uses.iter().map(|one| is_nothing(one.means)).collect(alloc)?)
}

fn is_nothing(means: Meaning) -> bool
    ensures { result ≡ is_nothing means }
{
    match means {
        Meaning::Nothing => true,
        Meaning::Plain => false,
        Meaning::Typed(_) => false,
    }
}
