ghost use Rattle.std.specs.Prelude.{IfOk};
ghost use Rattle.fp_main.specs.Output.{IsDueOfFiles, load_run};
ghost use Rattle.fp_main.specs.Words.{load_words};
ghost use Rattle.fp_scenario_run.specs.declared.scenario.RunText.TheVariants.{Counts};

use crate::answer::{Due, answer_files};
use crate::words::{AskedRun, Wanted};
use crate::{LoadFiles, SCENARIO, SOURCE};
use fp_base::NoMemory;
use fp_outside::Gate;
use fp_scenario_run::RunText;
use std::alloc::Global;
use std::sync::Wait;
use std::thread::Threads;

/// The load's topology.
const TOPOLOGY: &str = "Gen.T";

/// What is due for a run of the load with so many instances. No file is read but its own.
pub fn answer_load<R: Threads + Wait + Sync, G: Gate>(
    rt: &R,
    alloc: Global,
    instances: u32,
    gate: &G,
) -> Result<Due, NoMemory>
    ensures { IfOk result (λ due. IsDueOfFiles (Counts instances) load_words (load_run instances) due.status due.output due.line) }
{
    let mut files = LoadFiles::new(alloc, instances)?;
    let names = [String::from_str(alloc, SOURCE)?];
    let wanted = Wanted::Run(AskedRun {
        topology: TOPOLOGY,
        scenario: SCENARIO,
        told: RunText::Counts { instances },
    });
    answer_files(rt, alloc, wanted, &names, &mut files, gate)
}
