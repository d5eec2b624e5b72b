ghost use Rattle.std.specs.Prelude.{Some, IfOk, IfErr, OnOk};
ghost use Rattle.fp_tables.specs.Sound.{IsSoundFor};
ghost use Rattle.fp_tables.specs.SoundPrograms.{IsSoundProgram};
ghost use Rattle.fp_scenario_run.specs.Planned.{IsProgramOf, BreaksNoRule, IsRefused};

use fp_scenario::{ScenarioStop, read_scenario, value_spells_one_scenario};
use fp_scenario_check::check_scenario;
use fp_tables::{Program, Tables};
use std::alloc::Global;

/// The program that the text of a scenario stands for, or a rule that the text breaks, with the path of what breaks it.
pub fn program_of(alloc: Global, tables: &Tables, text: &[u8]) -> Result<Program, ScenarioStop>
    requires sound { IsSoundFor tables.now.model (Some tables.now.topology) }
    ensures planned { IfOk result (IsProgramOf tables.now text.now) }
    ensures sound { IfOk result (IsSoundProgram tables.now) }
    ensures unbroken { OnOk result (BreaksNoRule tables.now text.now) }
    ensures broken { IfErr result (IsRefused tables.now text.now) }
{
    value_spells_one_scenario();
    let scenario = read_scenario(alloc, text)?;
    check_scenario(alloc, tables, &scenario)
}
