ghost use Rattle.std.specs.Prelude.{◌≡◌, [], ℕ, List, Some, IfOk, slice_get};
ghost use Rattle.fp_gather.specs.FilesRun.{FilesRun, files_run};
ghost use Rattle.fp_tables.specs.Sound.{IsSound, IsSoundFor, IsSoundWith};
ghost use Rattle.fp_tables.specs.declared.topology.Topology.{Topology};
ghost use Rattle.fp_main.specs.Lines.{no_file_line as absent_line, read_fault_line as unread_line};
ghost use Rattle.fp_main.specs.declared.status.Status.TheVariants.{NoFile, ReadFault};
ghost use Rattle.fp_main.specs.Output.{IsDueOf, IsDueOfRun, IsScenarioRead, tables_of};
ghost use Rattle.fp_main.specs.Statuses.{status_of};
ghost use Rattle.fp_main.specs.Words.{IsRun};

use crate::answer::{Due, no_topology, said};
use crate::lines::{no_file_line, read_fault_line, scenario_line};
use crate::status::Status;
use crate::topologies::topology_named;
use crate::words::AskedRun;
use fp_base::{NoMemory, Row};
use fp_events::Finish;
use fp_outside::{Files, Gate, ReadRefusal};
use fp_scenario::ScenarioStop;
use fp_scenario_run::{Told, run_scenario};
use fp_tables::Model;
use std::alloc::Global;
use std::sync::Wait;
use std::thread::Threads;

/// The status of a call whose run ended so.
fn status_of(finish: Finish) -> Status
    ensures { result ≡ status_of finish }
{
    match finish {
        Finish::Complete => Status::Done,
        Finish::Stuck => Status::Stuck,
        Finish::Spent => Status::Spent,
        Finish::Asserted => Status::Asserted,
    }
}

/// What is due for a run that came to its end.
fn ended(alloc: Global, told: Told) -> Due
    ensures { result ≡ record { status = status_of told.finish; output = told.text; line = [] } }
{
    let Told { text, finish } = told;
    Due {
        status: status_of(finish),
        output: text,
        line: Row::new(alloc),
    }
}

/// What is due of a topology and the text of the scenario that stands in the run's file.
fn run_text<R: Threads + Wait + Sync, G: Gate>(
    rt: &R,
    alloc: Global,
    model: Model,
    topology: u32,
    asked: AskedRun,
    text: &[u8],
    gate: &G,
) -> Result<Due, NoMemory>
    requires sound { IsSoundFor model (Some topology) }
    ensures { (files : FilesRun) → IsScenarioRead files asked.entry.scenario.now text.now → IfOk result (λ due. IsDueOfRun asked.entry.told files asked.entry.scenario.now (tables_of model topology) due.status due.output due.line) }
{
    match run_scenario(rt, alloc, model, topology, text, asked.told, gate) {
        Ok(told) => Ok(ended(alloc, told)),
        Err(ScenarioStop::Broken(stop)) => {
            let line = scenario_line(alloc, asked.scenario, &stop)?;
            Ok(said(alloc, Status::Refused, line))
        }
        Err(ScenarioStop::NoMemory) => Err(NoMemory),
    }
}

/// What is due where the scenario's file isn't there.
fn no_file(alloc: Global, scenario: &str) -> Result<Due, NoMemory>
    ensures { IfOk result (λ due. due ≡ record { status = NoFile; output = []; line = absent_line scenario.now }) }
{
    let line = no_file_line(alloc, scenario)?;
    Ok(said(alloc, Status::NoFile, line))
}

/// What is due where it could not be read.
fn read_fault(alloc: Global, scenario: &str) -> Result<Due, NoMemory>
    ensures { IfOk result (λ due. due ≡ record { status = ReadFault; output = []; line = unread_line scenario.now }) }
{
    let line = read_fault_line(alloc, scenario)?;
    Ok(said(alloc, Status::ReadFault, line))
}

/// What is due of a topology and the scenario in the run's file.
fn run_file<R, F, G>(
    rt: &R,
    alloc: Global,
    model: Model,
    topology: u32,
    asked: AskedRun,
    files: &mut F,
    gate: &G,
) -> Result<Due, NoMemory>
where
    R: Threads + Wait + Sync,
    F: Files,
    G: Gate,
    requires sound { IsSoundFor model (Some topology) }
    ensures { IfOk result (λ due. IsDueOfRun asked.entry.told (files_run F.told F.faults F.misses files.old files.new) asked.entry.scenario.now (tables_of model topology) due.status due.output due.line) }
{
    match files.read(alloc, asked.scenario) {
        Ok(Some(text)) => run_text(rt, alloc, model, topology, asked, text.as_slice(), gate),
        Ok(None) => no_file(alloc, asked.scenario),
        Err(ReadRefusal::Failed) => read_fault(alloc, asked.scenario),
        Err(ReadRefusal::NoMemory) => Err(NoMemory),
    }
}

/// What is due for a run that is asked for. The scenario is read only where the model has the topology.
pub fn answer_run<R, F, G>(
    rt: &R,
    alloc: Global,
    model: Model,
    asked: AskedRun,
    files: &mut F,
    gate: &G,
) -> Result<Due, NoMemory>
where
    R: Threads + Wait + Sync,
    F: Files,
    G: Gate,
    requires sound { IsSound model }
    requires sound_with { (t : ℕ) (o : Topology) → slice_get model.topologies t ≡ Some o → IsSoundWith model o }
    ensures { (words names : List (List ℕ)) → IsRun words asked.entry.topology.now asked.entry.scenario.now names → IfOk result (λ due. IsDueOf asked.entry.told words names (files_run F.told F.faults F.misses files.old files.new) model due.status due.output due.line) }
{
    match topology_named(&model, asked.topology) {
        Some(topology) => run_file(rt, alloc, model, topology, asked, files, gate),
        None => no_topology(alloc, asked.topology),
    }
}
