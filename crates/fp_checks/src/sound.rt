ghost use Rattle.std.specs.Prelude.{Some};
ghost use Rattle.fp_tables.specs.Sound.{IsSoundFor};

use crate::models::{model_of, program_in, tables_of};
use crate::texts::{DROPPING, NUMBERED, TWO_CALLS};
use fp_base::{NoMemory, Row, Text};
use fp_sound_model::SoundModel;
use fp_sound_programs::SoundProgram;
use fp_tables::{Answers, Caller, Handler, Instance, Item, Model, Program, Spot, Tables, Topology};
use std::alloc::Global;
use std::test::Fail;

/// What of a model is no longer as its source gives it.
#[derive(Clone, Copy)]
enum Change {
    Nothing,
    /// An instance of a component that isn't there.
    Component,
    /// A queue of an instance that is passive.
    Queue,
    /// An instance without a name.
    Name,
    /// A definition that isn't there.
    Order,
    /// A topology without one of the instances that its connections join.
    Left,
    /// A topology that has an instance twice.
    Twice,
}

fn changed_instances(alloc: Global, instances: Row<Instance>, change: Change) -> Row<Instance> {
    let mut instances = instances.into_vec();
    if let Some(last) = instances.last_mut() {
        match change {
            Change::Component => last.component = 2,
            Change::Queue => last.queue = Some(1),
            Change::Name => last.name = Text::new(alloc),
            _ => {}
        }
    }
    Row::from_vec(instances)
}

fn changed_topologies(
    topologies: Row<Topology>,
    change: Change,
) -> Result<Row<Topology>, NoMemory> {
    let mut topologies = topologies.into_vec();
    if let Some(last) = topologies.last_mut() {
        match change {
            Change::Left => {
                last.instances.pop();
            }
            Change::Twice => last.instances.push(0)?,
            _ => {}
        }
    }
    Ok(Row::from_vec(topologies))
}

fn changed(alloc: Global, model: Model, change: Change) -> Result<Model, NoMemory> {
    let mut model = model;
    model.instances = changed_instances(alloc, model.instances, change);
    model.topologies = changed_topologies(model.topologies, change)?;
    if let Change::Order = change {
        model.order.push(Item::Topology(1))?;
    }
    Ok(model)
}

/// Whether a model is sound by itself, and with its topology.
fn is_sound_so(alloc: Global, change: Change) -> Result<(bool, bool), NoMemory> {
    let model = changed(alloc, model_of(alloc, NUMBERED)?, change)?;
    let alone = model.is_sound(alloc, None)?;
    let with = model.is_sound(alloc, Some(0))?;
    Ok((alone, with))
}

#[test]
fn models_are_sound_as_sources_give_them(rt: HostRuntime) -> Result<(), Fail> {
    let alloc = rt.alloc();
    assert_eq!(rt; is_sound_so(alloc, Change::Nothing)?, (true, true));
    for change in [
        Change::Component,
        Change::Queue,
        Change::Name,
        Change::Order,
    ] {
        assert_eq!(rt; is_sound_so(alloc, change)?, (false, false));
    }
    for change in [Change::Left, Change::Twice] {
        assert_eq!(rt; is_sound_so(alloc, change)?, (true, false));
    }
    assert!(rt;
        !model_of(alloc, NUMBERED)?.is_sound(alloc, Some(1))?,
        "there is one topology"
    );
    Ok(())
}

/// What of a program is no longer as its scenario gives it.
#[derive(Clone, Copy)]
enum Fault {
    Nothing,
    NoStep,
    TooManySteps,
    /// A handler of an instance that isn't there.
    Handler,
    /// Answers of a guard of an instance without machines.
    Answers,
    /// Two callers of one name.
    Caller,
}

fn change_program(alloc: Global, program: &mut Program, fault: Fault) -> Result<(), NoMemory> {
    match fault {
        Fault::NoStep => program.steps = 0,
        Fault::TooManySteps => program.steps = 20_001,
        Fault::Handler => program.handlers.push(Handler {
            instance: 1,
            place: Spot::Port(0),
            acts: Row::new(alloc),
        })?,
        Fault::Answers => program.answers.push(Answers {
            instance: 0,
            running: 0,
            guard: 0,
            given: Row::new(alloc),
        })?,
        Fault::Caller => program.callers.push(Caller {
            name: Text::from_str(alloc, "k")?,
            acts: Row::new(alloc),
        })?,
        Fault::Nothing => {}
    }
    Ok(())
}

fn is_program_sound(alloc: Global, tables: &Tables, fault: Fault) -> Result<bool, NoMemory>
    requires { IsSoundFor tables.now.model (Some tables.now.topology) }
{
    let mut program = program_in(alloc, tables, TWO_CALLS)?;
    change_program(alloc, &mut program, fault)?;
    program.is_sound(alloc, tables)
}

#[test]
fn programs_are_sound_as_scenarios_give_them(rt: HostRuntime) -> Result<(), Fail> {
    let alloc = rt.alloc();
    let tables = tables_of(alloc, DROPPING)?;
    assert!(rt; is_program_sound(alloc, &tables, Fault::Nothing)?);
    for fault in [
        Fault::NoStep,
        Fault::TooManySteps,
        Fault::Handler,
        Fault::Answers,
        Fault::Caller,
    ] {
        assert!(rt; !is_program_sound(alloc, &tables, fault)?);
    }
    Ok(())
}

#[test]
fn tables_look_up_ends(rt: HostRuntime) -> Result<(), Fail> {
    let tables = tables_of(rt.alloc(), NUMBERED)?;
    let end = tables.wire(0, 0, 1);
    assert_eq!(rt;
        end.map(|end| (end.instance, end.port, end.number)),
        Some((1, 0, 1))
    );
    assert!(rt; tables.wire(0, 0, 3).is_none());
    assert_eq!(rt; tables.input(1, 0).map(|port| port.size), Some(2));
    assert!(rt; tables.input(0, 0).is_none(), "an output");
    Ok(())
}
