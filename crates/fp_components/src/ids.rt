ghost use Rattle.std.specs.Prelude.{◌≡◌, ℕ, IfOk, Some, slice_get};
ghost use Rattle.fp_components.specs.Listing.{AreIdsOf};

use fp_base::{NoMemory, Row};
use fp_dictdefs::{ids_of, lists_of};
use fp_written_parts::WrittenMember;
use std::alloc::Global;

/// The ids and opcodes of what members list, kind by kind.
#[derive(Drop)]
pub struct Ids {
    pub commands: Row<u32>,
    pub events: Row<u32>,
    pub channels: Row<u32>,
    pub params: Row<u32>,
}

pub fn ids_in(alloc: Global, members: &[WrittenMember]) -> Result<Ids, NoMemory>
    ensures { IfOk result (AreIdsOf members.now) }
{
    let lists = lists_of(alloc, members)?;
    let commands = ids_of(alloc, lists.commands.as_slice())?;
    let events = ids_of(alloc, lists.events.as_slice())?;
    let channels = ids_of(alloc, lists.channels.as_slice())?;
    let params = ids_of(alloc, lists.params.as_slice())?;
    Ok(Ids {
        commands,
        events,
        channels,
        params,
    })
}

/// The id at a position, 0 behind the last.
pub fn id_at(ids: &Row<u32>, at: usize) -> u32
    ensures { (id : ℕ) → slice_get ids.now at ≡ Some id → result ≡ id }
{
    match ids.get(at) {
        Some(id) => *id,
        None => 0,
    }
}
