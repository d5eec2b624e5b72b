ghost use Rattle.std.specs.Prelude.{◌≡◌, ◌<◌, ◌^◌, ℕ, List, IfOk, length, map};
ghost use Rattle.fp_base.specs.Least.{IsLeast};
ghost use Rattle.fp_base.specs.declared.rule.Rule.TheVariants.{InitialCount, InitialLeavesState, SignalTwice, ChoiceCycle, Unreachable, MachineNameRepeated};
ghost use Rattle.fp_machine_rules.specs.Broken.{AtItems, BrokenAsWhole, BrokenWays, RepeatedItems, RepeatedNames};
ghost use Rattle.fp_machine_rules.specs.Forms.{IsLaid};
ghost use Rattle.fp_machine_rules.specs.Gathered.{AreGathered};
ghost use Rattle.fp_machine_rules.specs.Members.{StateCountsWrong};
ghost use Rattle.fp_machine_rules.specs.Reached.{IsUnreached};
ghost use Rattle.fp_machine_rules.specs.Repeated.{Repeats, name_of, signal_of, entry_of, exit_of, declared_signal, declared_action, declared_guard};
ghost use Rattle.fp_machine_rules.specs.Through.{IsOnRing, LeavesItsState};
ghost use Rattle.fp_machine_rules.specs.declared.item.Item.{Item};

use crate::counts::{machine_counts_wrong, states_count_wrong};
use crate::gathering::Gathered;
use crate::item::Item;
use crate::keys::{
    declared_action_keys, declared_guard_keys, declared_signal_keys, entry_keys, exit_keys,
    name_keys, signal_keys,
};
use crate::nesting::is_too_large;
use crate::placing::{least_flagged, repeat_fault};
use crate::reached::unreached;
use crate::rings::{initials_leaving, on_rings};
use fp_base::{NoMemory, Place, Refusal, Rule, lesser, refusal_if};
use std::alloc::Global;

/// What is broken at the name of a machine.
pub fn whole_fault(
    alloc: Global,
    place: Place,
    items: &[Item],
    gathered: &Gathered,
) -> Result<Option<Refusal>, NoMemory>
    requires laid { IsLaid items.now }
    requires short { length items.now < 2 ^ 32 }
    requires gathered { AreGathered items.now (length items.now) gathered.now.table.items gathered.now.top }
    ensures { IfOk result (IsLeast (BrokenAsWhole place items.now)) }
{
    let large = is_too_large(alloc, items)?;
    let miscounted = machine_counts_wrong(gathered);
    let count = refusal_if(miscounted, Rule::InitialCount, place);
    let size = refusal_if(large, Rule::MachineTooLarge, place);
    Ok(lesser(count, size))
}

fn count_fault(
    alloc: Global,
    items: &[Item],
    gathered: &Gathered,
    places: &[Place],
) -> Result<Option<Refusal>, NoMemory>
    requires gathered { AreGathered items.now (length items.now) gathered.now.table.items gathered.now.top }
    requires places { places.now ≡ map (λ (x : Item). x.place) items.now }
    ensures { IfOk result (IsLeast (AtItems InitialCount items.now (StateCountsWrong items.now))) }
{
    let flags = states_count_wrong(alloc, items, gathered)?;
    Ok(least_flagged(Rule::InitialCount, places, &flags))
}

fn leaving_fault(
    alloc: Global,
    items: &[Item],
    places: &[Place],
) -> Result<Option<Refusal>, NoMemory>
    requires laid { IsLaid items.now }
    requires short { length items.now < 2 ^ 32 }
    requires places { places.now ≡ map (λ (x : Item). x.place) items.now }
    ensures { IfOk result (IsLeast (AtItems InitialLeavesState items.now (LeavesItsState items.now))) }
{
    let flags = initials_leaving(alloc, items)?;
    Ok(least_flagged(Rule::InitialLeavesState, places, &flags))
}

fn ring_fault(alloc: Global, items: &[Item], places: &[Place]) -> Result<Option<Refusal>, NoMemory>
    requires short { length items.now < 2 ^ 32 }
    requires places { places.now ≡ map (λ (x : Item). x.place) items.now }
    ensures { IfOk result (IsLeast (AtItems ChoiceCycle items.now (IsOnRing items.now))) }
{
    let flags = on_rings(alloc, items)?;
    Ok(least_flagged(Rule::ChoiceCycle, places, &flags))
}

fn reach_fault(
    alloc: Global,
    items: &[Item],
    gathered: &Gathered,
    places: &[Place],
) -> Result<Option<Refusal>, NoMemory>
    requires laid { IsLaid items.now }
    requires short { length items.now < 2 ^ 32 }
    requires gathered { AreGathered items.now (length items.now) gathered.now.table.items gathered.now.top }
    requires places { places.now ≡ map (λ (x : Item). x.place) items.now }
    ensures { IfOk result (IsLeast (AtItems Unreachable items.now (IsUnreached items.now))) }
{
    let flags = unreached(alloc, items, gathered)?;
    Ok(least_flagged(Rule::Unreachable, places, &flags))
}

/// The least rule of initial transitions, of rings of choices and of what isn't reached.
pub fn way_fault(
    alloc: Global,
    items: &[Item],
    gathered: &Gathered,
    places: &[Place],
) -> Result<Option<Refusal>, NoMemory>
    requires laid { IsLaid items.now }
    requires short { length items.now < 2 ^ 32 }
    requires gathered { AreGathered items.now (length items.now) gathered.now.table.items gathered.now.top }
    requires places { places.now ≡ map (λ (x : Item). x.place) items.now }
    ensures { IfOk result (IsLeast (BrokenWays items.now)) }
{
    let count = count_fault(alloc, items, gathered, places)?;
    let leaving = leaving_fault(alloc, items, places)?;
    let ring = ring_fault(alloc, items, places)?;
    let reach = reach_fault(alloc, items, gathered, places)?;
    let later = lesser(ring, reach);
    let more = lesser(leaving, later);
    Ok(lesser(count, more))
}

fn signal_fault(
    alloc: Global,
    items: &[Item],
    places: &[Place],
) -> Result<Option<Refusal>, NoMemory>
    requires { places.now ≡ map (λ (x : Item). x.place) items.now }
    ensures { IfOk result (IsLeast (AtItems SignalTwice items.now (Repeats signal_of items.now))) }
{
    let keys = signal_keys(alloc, items)?;
    repeat_fault(alloc, Rule::SignalTwice, &keys, places)
}

fn name_fault(alloc: Global, items: &[Item], places: &[Place]) -> Result<Option<Refusal>, NoMemory>
    requires { places.now ≡ map (λ (x : Item). x.place) items.now }
    ensures { IfOk result (IsLeast (AtItems MachineNameRepeated items.now (Repeats name_of items.now))) }
{
    let keys = name_keys(alloc, items)?;
    repeat_fault(alloc, Rule::MachineNameRepeated, &keys, places)
}

fn entry_fault(alloc: Global, items: &[Item], places: &[Place]) -> Result<Option<Refusal>, NoMemory>
    requires { places.now ≡ map (λ (x : Item). x.place) items.now }
    ensures { IfOk result (IsLeast (AtItems MachineNameRepeated items.now (Repeats entry_of items.now))) }
{
    let keys = entry_keys(alloc, items)?;
    repeat_fault(alloc, Rule::MachineNameRepeated, &keys, places)
}

fn exit_fault(alloc: Global, items: &[Item], places: &[Place]) -> Result<Option<Refusal>, NoMemory>
    requires { places.now ≡ map (λ (x : Item). x.place) items.now }
    ensures { IfOk result (IsLeast (AtItems MachineNameRepeated items.now (Repeats exit_of items.now))) }
{
    let keys = exit_keys(alloc, items)?;
    repeat_fault(alloc, Rule::MachineNameRepeated, &keys, places)
}

/// The least place of a transition on a signal that its state has before, or of a state, a choice, an entry or an exit that stands there before.
pub fn again_fault(
    alloc: Global,
    items: &[Item],
    places: &[Place],
) -> Result<Option<Refusal>, NoMemory>
    requires { places.now ≡ map (λ (x : Item). x.place) items.now }
    ensures { IfOk result (IsLeast (RepeatedItems items.now)) }
{
    let signal = signal_fault(alloc, items, places)?;
    let name = name_fault(alloc, items, places)?;
    let entry = entry_fault(alloc, items, places)?;
    let exit = exit_fault(alloc, items, places)?;
    let later = lesser(entry, exit);
    let more = lesser(name, later);
    Ok(lesser(signal, more))
}

fn declared_signal_fault(
    alloc: Global,
    items: &[Item],
    places: &[Place],
) -> Result<Option<Refusal>, NoMemory>
    requires { places.now ≡ map (λ (x : Item). x.place) items.now }
    ensures { IfOk result (IsLeast (AtItems MachineNameRepeated items.now (Repeats declared_signal items.now))) }
{
    let keys = declared_signal_keys(alloc, items)?;
    repeat_fault(alloc, Rule::MachineNameRepeated, &keys, places)
}

fn declared_action_fault(
    alloc: Global,
    items: &[Item],
    places: &[Place],
) -> Result<Option<Refusal>, NoMemory>
    requires { places.now ≡ map (λ (x : Item). x.place) items.now }
    ensures { IfOk result (IsLeast (AtItems MachineNameRepeated items.now (Repeats declared_action items.now))) }
{
    let keys = declared_action_keys(alloc, items)?;
    repeat_fault(alloc, Rule::MachineNameRepeated, &keys, places)
}

fn declared_guard_fault(
    alloc: Global,
    items: &[Item],
    places: &[Place],
) -> Result<Option<Refusal>, NoMemory>
    requires { places.now ≡ map (λ (x : Item). x.place) items.now }
    ensures { IfOk result (IsLeast (AtItems MachineNameRepeated items.now (Repeats declared_guard items.now))) }
{
    let keys = declared_guard_keys(alloc, items)?;
    repeat_fault(alloc, Rule::MachineNameRepeated, &keys, places)
}

/// The least place of a declaration whose name an earlier one of its kind has.
pub fn declared_fault(
    alloc: Global,
    items: &[Item],
    places: &[Place],
) -> Result<Option<Refusal>, NoMemory>
    requires { places.now ≡ map (λ (x : Item). x.place) items.now }
    ensures { IfOk result (IsLeast (RepeatedNames items.now)) }
{
    let signal = declared_signal_fault(alloc, items, places)?;
    let action = declared_action_fault(alloc, items, places)?;
    let guard = declared_guard_fault(alloc, items, places)?;
    let later = lesser(action, guard);
    Ok(lesser(signal, later))
}
