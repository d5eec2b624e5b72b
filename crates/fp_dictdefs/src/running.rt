ghost use Rattle.std.specs.Prelude.{◌≡◌, ◌||◌, ℕ, List, IfOk, OnOk};
ghost use Rattle.std.specs.Str.{bytes_eq};
ghost use Rattle.fp_base.specs.Least.{InSome, IsLeast};
ghost use Rattle.fp_base.specs.NameSets.{has_name};
ghost use Rattle.fp_dictdefs.specs.Running.{InstancesBroken, RunningBroken, instance_fault, is_external, is_instance, running_fault};

use fp_base::{NoMemory, Refusal, Rule, lesser, refusal_if};
use fp_tables::see;
use fp_written_parts::{WrittenComponent, WrittenMember, WrittenRunning};
use std::alloc::Global;
use std::collections::BTreeSet;

/// The least rule that an instance of a state machine breaks in some component: a name that an earlier instance has, or a machine whose body is
/// written elsewhere. `externals` says of each machine of the source whether its body is.
pub fn running_faults(
    alloc: Global,
    externals: &[bool],
    components: &[WrittenComponent],
) -> Result<Option<Refusal>, NoMemory>
    ensures { IfOk result (IsLeast (InSome (λ (k : ℕ). RunningBroken externals.now) components.now)) }
{
    let mut first = None;
    for component in components {
        let fault = component_fault(alloc, externals, component)?;
        first = lesser(first, fault);
    }
    Ok(first)
}

fn component_fault(
    alloc: Global,
    externals: &[bool],
    component: &WrittenComponent,
) -> Result<Option<Refusal>, NoMemory>
    ensures { IfOk result (IsLeast (RunningBroken externals.now component.now)) }
{
    instances_fault(alloc, externals, component.members.as_slice())
}

fn instances_fault(
    alloc: Global,
    externals: &[bool],
    members: &[WrittenMember],
) -> Result<Option<Refusal>, NoMemory>
    ensures { IfOk result (IsLeast (InstancesBroken externals.now members.now)) }
{
    let mut seen = BTreeSet::new(alloc);
    let mut first = None;
    for member in members {
        let fault = member_fault(externals, &mut seen, member)?;
        first = lesser(first, fault);
    }
    Ok(first)
}

fn member_fault<'a>(
    externals: &[bool],
    seen: &mut BTreeSet<&'a str>,
    member: &'a WrittenMember,
) -> Result<Option<Refusal>, NoMemory>
    ensures fault { IfOk result (λ fault. fault ≡ instance_fault externals.now (has_name seen.old) member.now) }
    ensures seen { OnOk result ((q : List ℕ) → has_name seen.new q ≡ (has_name seen.old q || is_instance member.now q)) }
{
    match member {
        WrittenMember::Port(_) => Ok(None),
        WrittenMember::Import(_) => Ok(None),
        WrittenMember::Command(_) => Ok(None),
        WrittenMember::Event(_) => Ok(None),
        WrittenMember::Channel(_) => Ok(None),
        WrittenMember::Param(_) => Ok(None),
        WrittenMember::Match(_) => Ok(None),
        WrittenMember::Running(running) => running_fault(externals, seen, running.get()),
    }
}

fn running_fault<'a>(
    externals: &[bool],
    seen: &mut BTreeSet<&'a str>,
    running: &'a WrittenRunning,
) -> Result<Option<Refusal>, NoMemory>
    ensures fault { IfOk result (λ fault. fault ≡ running_fault externals.now (has_name seen.old) running.now) }
    ensures seen { OnOk result ((q : List ℕ) → has_name seen.new q ≡ (has_name seen.old q || bytes_eq q running.now.name)) }
{
    let again = see(seen, running.name.as_str())?;
    let external = is_external(externals, running.machine);
    let repeated = refusal_if(again, Rule::MachineNameRepeated, running.at);
    let without = refusal_if(external, Rule::ExternalMachine, running.at);
    Ok(lesser(repeated, without))
}

fn is_external(externals: &[bool], machine: u32) -> bool
    ensures { result ≡ is_external externals.now machine }
{
    match externals.get(machine as usize) {
        Some(external) => *external,
        None => false,
    }
}
