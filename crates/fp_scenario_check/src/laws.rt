ghost use Rattle.std.specs.Prelude.{◌≡◌, ℕ, List, Some, true, is_some};
ghost use Rattle.fp_reach.specs.Cycles.{HasNoCycle, HasNoLockCycle};
ghost use Rattle.fp_scenario.specs.Same.{IsOfText};
ghost use Rattle.fp_scenario.specs.declared.scenario.Scenario.{Scenario};
ghost use Rattle.fp_scenario_actions.specs.Spots.{spot_in};
ghost use Rattle.fp_scenario_check.specs.Broken.{BreaksNothing};
ghost use Rattle.fp_scenario_check.specs.Planned.{IsWhole, Planned};
ghost use Rattle.fp_tables.specs.Lookup.{Described};
ghost use Rattle.fp_tables.specs.Positions.{component_of};
ghost use Rattle.fp_tables.specs.Programs.{bound_at};
ghost use Rattle.fp_tables.specs.Sound.{IsSoundFor};
ghost use Rattle.fp_tables.specs.SoundPrograms.{IsSoundProgram};
ghost use Rattle.fp_tables.specs.declared.component.Component.{Component};
ghost use Rattle.fp_tables.specs.declared.program.Program.{Program};
ghost use Rattle.fp_tables.specs.declared.program.Spot.{Spot};

use fp_scenario::scenario_keeps_limits;

/// A law: a handler begins at each place of an instance that a text at `on` means, and a place has one text.
pub fn handlers_begin()
    ensures begin { (t : Described) (i : ℕ) (c : Component) (on : List ℕ) (place : Spot) → component_of t.model i ≡ Some c → spot_in t c on ≡ Some place → is_some (bound_at t i place) ≡ true }
    ensures once { (t : Described) (c : Component) (on other : List ℕ) (place : Spot) → spot_in t c on ≡ Some place → spot_in t c other ≡ Some place → on ≡ other }
{}

/// A law: in sound tables the program that a scenario of a text stands for is sound, where the scenario breaks no rule but
/// perhaps one on cycles.
pub fn planned_programs_are_sound()
    ensures { (t : Described) (scenario : Scenario) (program : Program) → IsSoundFor t.model (Some t.topology) → IsOfText scenario → Planned t scenario program → IsWhole t scenario → IsSoundProgram t program }
{
    scenario_keeps_limits();
}

/// A law: a scenario stands for at most one program, in any tables.
pub fn scenarios_stand_for_one_program()
    ensures { (t : Described) (scenario : Scenario) (program other : Program) → Planned t scenario program → Planned t scenario other → program ≡ other }
{}

/// A law: a scenario breaks no rule at all where it breaks none but perhaps one on cycles and a program that it stands for has no cycle.
pub fn acyclic_programs_break_nothing()
    ensures { (t : Described) (scenario : Scenario) (program : Program) → Planned t scenario program → IsWhole t scenario → HasNoCycle t program → HasNoLockCycle t program → BreaksNothing t scenario }
{
    scenarios_stand_for_one_program();
}
