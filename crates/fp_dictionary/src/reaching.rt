ghost use Rattle.std.specs.Prelude.{◌≡◌, length, slice_get, IfOk, OnOk};
ghost use Rattle.fp_dictionary.specs.Marks.{marks_of, no_marks, round_read, rounds_read, with_marks};

use crate::marking::{Marked, mark_all, mark_uses};
use fp_base::{NoMemory, Row};
use fp_tables::{Kind, TypeDef};
use std::alloc::Global;

fn unmarked(alloc: Global, count: usize) -> Result<Marked, NoMemory>
    ensures { IfOk result (λ marks. marks_of marks ≡ no_marks count) }
{
    let flags = Vec::from_elem(alloc, false, count)?;
    Ok(Marked {
        flags,
        order: Row::new(alloc),
    })
}

fn position_at(order: &[u32], round: usize) -> Option<u32>
    ensures { result ≡ slice_get order.now round }
{
    order.get(round).copied()
}

fn read_next(marks: &mut Marked, types: &[TypeDef], round: usize) -> Result<(), NoMemory>
    ensures { OnOk result (marks_of marks.new ≡ round_read types.now (marks_of marks.old) round) }
{
    match position_at(marks.order.as_slice(), round) {
        Some(at) => mark_uses(marks, types, at),
        None => Ok(()),
    }
}

/// Reads each type that is marked once, in the order in which they came. No more come than there are in the table.
fn read_all(marks: &mut Marked, types: &[TypeDef]) -> Result<(), NoMemory>
    ensures { OnOk result (marks_of marks.new ≡ rounds_read types.now (marks_of marks.old) (length types.now)) }
{
    for round in 0..types.len() {
        read_next(marks, types, round)?;
    }
    Ok(())
}

/// The positions of the types of these kinds and of all that they use, through others too, each once. In linear time.
pub fn reached(alloc: Global, types: &[TypeDef], kinds: &[Kind]) -> Result<Row<u32>, NoMemory>
    ensures { IfOk result (λ order. order ≡ (rounds_read types.now (with_marks (no_marks (length types.now)) kinds.now) (length types.now)).order) }
{
    let mut marks = unmarked(alloc, types.len())?;
    mark_all(&mut marks, kinds)?;
    read_all(&mut marks, types)?;
    let Marked { flags: _, order } = marks;
    Ok(order)
}
