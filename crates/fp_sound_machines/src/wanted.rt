ghost use Rattle.std.specs.Prelude.{◌≡◌, Option};
ghost use Rattle.std.specs.Option.{option_copied};
ghost use Rattle.fp_tables.specs.Machines.{actions_are_given, guard_is_given};
ghost use Rattle.fp_sound_machines.specs.Wanted.{meets, both_wanted, wanted_by};
ghost use Rattle.fp_tables.specs.declared.kind.Kind.{Kind};

use fp_tables::{Kind, Machine, Named, TypeDef, same_kind, target};

/// What value actions and guards want: any or none, one of a type, or what nothing can be.
#[derive(Clone, Copy)]
pub enum Wanted {
    Nothing,
    One(Kind),
    Never,
}

/// Whether what is given will do.
pub fn meets(types: &[TypeDef], given: Option<Kind>, wanted: Wanted) -> bool
    ensures { result ≡ meets types.now given wanted }
{
    match wanted {
        Wanted::Nothing => true,
        Wanted::One(kind) => match given {
            Some(given) => same_kind(target(types, given), kind),
            None => false,
        },
        Wanted::Never => false,
    }
}

/// What wants both.
pub fn both_wanted(left: Wanted, right: Wanted) -> Wanted
    ensures { result ≡ both_wanted left right }
{
    match (left, right) {
        (Wanted::Nothing, other) | (other, Wanted::Nothing) => other,
        (Wanted::One(left), Wanted::One(right)) if same_kind(left, right) => Wanted::One(left),
        _ => Wanted::Never,
    }
}

fn wanted_by(types: &[TypeDef], named: Option<&Named>) -> Wanted
    ensures { result ≡ wanted_by types.now (option_copied named.entry) }
{
    match named {
        Some(
            Named {
                kind: Some(kind),
                ..
            },
        ) => Wanted::One(target(types, *kind)),
        Some(Named { kind: None, .. }) => Wanted::Nothing,
        None => Wanted::Never,
    }
}

pub fn wanted_by_guard(types: &[TypeDef], machine: &Machine, guard: u32) -> Wanted
    ensures { (given : Option Kind) → meets types.now given result ≡ guard_is_given types.now machine.now given guard }
{
    wanted_by(types, machine.guards.get(guard as usize))
}

pub fn wanted_by_actions(types: &[TypeDef], machine: &Machine, actions: &[u32]) -> Wanted
    ensures { (given : Option Kind) → meets types.now given result ≡ actions_are_given types.now machine.now given actions.now }
{
    let mut wanted = Wanted::Nothing;
    for action in actions {
        let more = wanted_by(types, machine.actions.get(*action as usize));
        wanted = both_wanted(wanted, more);
    }
    wanted
}
