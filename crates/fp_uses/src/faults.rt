ghost use Rattle.std.specs.Prelude.{◌≡◌, List, flat_map, length, IfOk};
ghost use Rattle.fp_base.specs.Least.{InSome, IsLeast};
ghost use Rattle.fp_graph.specs.Chains.{AreFlags, Chain, IsOnCycle};
ghost use Rattle.fp_meaning.specs.declared.item.Item.{Item as OneItem};
ghost use Rattle.fp_meaning.specs.Meaning.{AreMeanings};
ghost use Rattle.fp_meaning.specs.Names.{definitions, definitions_of, mentions};
ghost use Rattle.fp_meaning.specs.Uses.{BrokenByChains, UsesBroken, Uses as Using};
ghost use Rattle.fp_uses.specs.Flagged.{Flagged, FlaggedAt, MarkedAt, group_of_users};

use crate::users::{Users, are_of};
use crate::using::sorted_uses;
use fp_base::{NoMemory, Place, Refusal, Rule, lesser, refusal_if};
use fp_graph::{Chained, is_flagged};
use fp_layout::{definitions_in, lay_out};
use fp_meaning::Definition;
use fp_tree::{Source, Uses};
use std::alloc::Global;

/// The least of the cycles, and of the chains that are too long, of the constants and types of a source.
pub fn use_faults(alloc: Global, source: &Source, uses: &Uses) -> Result<Option<Refusal>, NoMemory>
    requires { AreMeanings (definitions source.now) (mentions source.now) uses.now.meanings }
    ensures { IfOk result (IsLeast (UsesBroken source.now)) }
{
    let layout = lay_out(alloc, source)?;
    let items = layout.items();
    let chained = sorted_uses(alloc, items, uses)?;
    let row = definitions_in(alloc, items)?;
    let definitions = row.as_slice();
    Ok(lesser(
        chain_faults(definitions, &chained, Users::Types),
        chain_faults(definitions, &chained, Users::Constants),
    ))
}

/// The least of the cycles, and of the chains that are too long, of the constants or of the types.
pub fn chain_faults(definitions: &[Definition], chained: &Chained, users: Users) -> Option<Refusal>
    requires cyclic { length chained.now.cyclic.items ≡ length definitions.now }
    requires deep { length chained.now.deep.items ≡ length definitions.now }
    ensures { (parts : List OneItem) → definitions.now ≡ flat_map definitions_of parts
        → AreFlags (length definitions.now) (IsOnCycle (Using parts)) chained.now.cyclic.items
        → AreFlags (length definitions.now) (λ number. Chain (length definitions.now) (Using parts) number 256) chained.now.deep.items
        → IsLeast (BrokenByChains parts (group_of_users users)) result }
{
    least_of(definitions, &chained.cyclic, &chained.deep, users)
}

fn least_of(
    definitions: &[Definition],
    cyclic: &[bool],
    deep: &[bool],
    users: Users,
) -> Option<Refusal>
    requires cyclic { length cyclic.now ≡ length definitions.now }
    requires deep { length deep.now ≡ length definitions.now }
    ensures { IsLeast (InSome (Flagged cyclic.now deep.now users) definitions.now) result }
{
    let mut first = None;
    for (number, definition) in definitions.iter().enumerate() {
        let fault = fault_at(
            definition,
            is_flagged(cyclic, number),
            is_flagged(deep, number),
            users,
        );
        first = lesser(first, fault);
    }
    first
}

fn fault_at(definition: &Definition, cyclic: bool, deep: bool, users: Users) -> Option<Refusal>
    ensures { IsLeast (FlaggedAt users definition.now cyclic deep) result }
{
    if are_of(users, definition.group) {
        marked(definition.place, cyclic, deep)
    } else {
        None
    }
}

fn marked(place: Place, cyclic: bool, deep: bool) -> Option<Refusal>
    ensures { IsLeast (MarkedAt place cyclic deep) result }
{
    lesser(
        refusal_if(cyclic, Rule::Cycle, place),
        refusal_if(deep, Rule::ChainTooLong, place),
    )
}
