ghost use Rattle.std.specs.Prelude.{◌<◌, All, Some};
ghost use Rattle.fp_tables.specs.Sound.{IsSoundFor};
ghost use Rattle.fp_tables.specs.SoundPrograms.{IsSoundProgram};
ghost use Rattle.fp_events.specs.Fits.{actor_count as actors_of};
ghost use Rattle.fp_plant.specs.Planted.{Gives};

use crate::models::{program_in, tables_of};
use crate::texts::{BLOCKING, TWO_CALLS};
use fp_actor::actor_count;
use fp_base::NoMemory;
use fp_events::Why;
use fp_outside::OpenGate;
use fp_plant::{Hand, Plant, Stepped};
use fp_tables::{Program, Tables};
use std::alloc::Global;
use std::sync::Wait;
use std::test::Fail;

// What two steps of the hand at a place come to.
fn two_steps<'a, R: Wait>(
    rt: &R,
    alloc: Global,
    plant: &Plant<'a>,
    hands: &mut [Hand<'a>],
) -> Result<Option<(Stepped, Stepped)>, NoMemory>
    requires { All (λ h. Gives plant.now h) hands.old }
{
    if hands.len() == 0 {
        return Ok(None);
    }
    let first = plant.step(rt, alloc, &mut hands[0], &OpenGate)?;
    let second = plant.step(rt, alloc, &mut hands[0], &OpenGate)?;
    Ok(Some((first, second)))
}

fn stepped<R: Wait>(
    rt: &R,
    alloc: Global,
    tables: &Tables,
    program: &Program,
) -> Result<Option<(Stepped, Stepped)>, NoMemory>
    requires sound { IsSoundFor tables.now.model (Some tables.now.topology) }
    requires good { IsSoundProgram tables.now program.now }
{
    if actor_count(tables, program) == 0 {
        return Ok(None);
    }
    let (plant, hands) = Plant::open(alloc, tables, program)?;
    let mut hands = hands.into_vec();
    two_steps(rt, alloc, &plant, hands.as_mut_slice())
}

#[test]
fn a_hand_steps_and_then_waits_for_room(rt: HostRuntime) -> Result<(), Fail> {
    let tables = tables_of(rt.alloc(), BLOCKING)?;
    let program = program_in(rt.alloc(), &tables, TWO_CALLS)?;
    let came = stepped(&rt, rt.alloc(), &tables, &program)?;
    assert!(rt; came == Some((Stepped::Took, Stepped::NotYet(Why::Full))));
    Ok(())
}
