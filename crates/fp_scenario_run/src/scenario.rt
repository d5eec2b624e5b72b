ghost use Rattle.std.specs.Prelude.{◌≡◌, Some, IfOk, IfErr, OnOk};
ghost use Rattle.fp_tables.specs.Sound.{IsSoundFor};
ghost use Rattle.fp_tables.specs.SoundPrograms.{IsSoundProgram};
ghost use Rattle.fp_events.specs.Run.{IsRun};
ghost use Rattle.fp_scenario_run.specs.Told.{IsToldBy, IsToldOf, text_of};
ghost use Rattle.fp_scenario_run.specs.Planned.{BreaksNoRule, IsRefused};

use crate::counting::counts_of;
use crate::logging::log_of;
use crate::planning::program_of;
use crate::running::run_on_threads;
use fp_base::{NoMemory, Row};
use fp_events::{Entry, Finish};
use fp_outside::Gate;
use fp_scenario::ScenarioStop;
use fp_tables::{Model, Program, Tables};
use std::alloc::Global;
use std::sync::Wait;
use std::thread::Threads;

/// What is told of a run.
#[derive(Clone, Copy)]
pub enum RunText {
    /// Its log.
    Log,
    /// Of a load with so many instances, how much went through its queues.
    Counts { instances: u32 },
}

/// A text that tells of a run, and how the run ended.
#[derive(Drop)]
pub struct Told {
    pub text: Row<u8>,
    pub finish: Finish,
}

/// The text of a run that is wanted.
fn text_of(
    alloc: Global,
    tables: &Tables,
    program: &Program,
    entries: &Row<Entry>,
    finish: Finish,
    wanted: RunText,
) -> Result<Row<u8>, NoMemory>
    requires sound { IsSoundFor tables.now.model (Some tables.now.topology) }
    requires good { IsSoundProgram tables.now program.now }
    requires run { IsRun tables.now program.now entries.now }
    ensures { IfOk result (λ text. text ≡ text_of wanted tables.now program.now entries.now finish) }
{
    match wanted {
        RunText::Log => log_of(alloc, tables, program, entries, finish),
        RunText::Counts { instances } => counts_of(alloc, instances, entries.as_slice(), finish),
    }
}

/// Runs a program to its end, and tells of it.
fn run_told<R: Threads + Wait + Sync, G: Gate>(
    rt: &R,
    alloc: Global,
    tables: &Tables,
    program: &Program,
    wanted: RunText,
    gate: &G,
) -> Result<Told, NoMemory>
    requires sound { IsSoundFor tables.now.model (Some tables.now.topology) }
    requires good { IsSoundProgram tables.now program.now }
    ensures { IfOk result (λ r. IsToldOf tables.now wanted program.now r.text r.finish) }
{
    let ran = run_on_threads(rt, alloc, tables, program, gate)?;
    let text = text_of(alloc, tables, program, &ran.0, ran.1, wanted)?;
    Ok(Told {
        text,
        finish: ran.1,
    })
}

/// Runs the scenario of a text over a topology of a model to its end, each actor in a thread of its own; or says which rule the
/// text breaks, before anything runs.
pub fn run_scenario<R: Threads + Wait + Sync, G: Gate>(
    rt: &R,
    alloc: Global,
    model: Model,
    topology: u32,
    text: &[u8],
    wanted: RunText,
    gate: &G,
) -> Result<Told, ScenarioStop>
    requires sound { IsSoundFor model (Some topology) }
    ensures told { IfOk result (λ r. IsToldBy (record { model = model; topology = topology }) wanted text.now r.text r.finish) }
    ensures unbroken { OnOk result (BreaksNoRule (record { model = model; topology = topology }) text.now) }
    ensures broken { IfErr result (IsRefused (record { model = model; topology = topology }) text.now) }
{
    let tables = Tables::of(alloc, model, topology)?;
    let program = program_of(alloc, &tables, text)?;
    let told = run_told(rt, alloc, &tables, &program, wanted, gate)?;
    Ok(told)
}
