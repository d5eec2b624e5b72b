ghost use Rattle.std.specs.Prelude.{◌≡◌, ℕ, List, Some, false, is_some, length, true};
ghost use Rattle.std.specs.List.{AllByRecursion};
ghost use Rattle.fp_base.specs.declared.rule.Rule.{Rule};
ghost use Rattle.fp_scenario.specs.Same.{IsNamed};
ghost use Rattle.fp_scenario.specs.declared.scenario.ActText.{ActText};
ghost use Rattle.fp_tables.specs.Acts.{suit_in_turn};
ghost use Rattle.fp_tables.specs.Arguments.{Scope};
ghost use Rattle.fp_tables.specs.Lookup.{Described};
ghost use Rattle.fp_tables.specs.Positions.{component_of};
ghost use Rattle.fp_tables.specs.Programs.{act_suits, caller_act_suits, return_stands, returned_at};
ghost use Rattle.fp_tables.specs.Sound.{IsSoundFor};
ghost use Rattle.fp_tables.specs.declared.component.Component.{Component};
ghost use Rattle.fp_tables.specs.declared.program.Act.{Act};
ghost use Rattle.fp_tables.specs.declared.program.Spot.{Spot};
ghost use Rattle.fp_scenario_actions.specs.Calling.{ActsPlan as CallsPlan, BreaksAt as CallsBreak};
ghost use Rattle.fp_scenario_actions.specs.Listing.{ActsPlan, BreaksAt, lacks_return};

/// A law: a list of actions that is planned breaks no rule, at no position.
pub fn planned_lists_break_nothing()
    ensures { (t : Described) (i : ℕ) (c : Component) (place : Spot) (scope : Scope) (texts : List ActText) (acts : List Act) (rule : Rule) (n : ℕ) → ActsPlan t i c place scope texts acts → BreaksAt t i c place rule n scope texts → ⊥ }
{}

/// A law: neither does a caller's list.
pub fn planned_calls_break_nothing()
    ensures { (t : Described) (scope : Scope) (texts : List ActText) (acts : List Act) (rule : Rule) (n : ℕ) → CallsPlan t scope texts acts → CallsBreak t rule n scope texts → ⊥ }
{}

/// A law: in sound tables the actions that a handler's list is planned as suit the handler's instance and place.
pub fn planned_lists_suit()
    ensures suit { (t : Described) (i : ℕ) (c : Component) (place : Spot) (scope : Scope) (texts : List ActText) (acts : List Act) → IsSoundFor t.model (Some t.topology) → component_of t.model i ≡ Some c → AllByRecursion IsNamed texts → ActsPlan t i c place scope texts acts → suit_in_turn t (act_suits t i place) scope acts ≡ true }
    ensures ends { (t : Described) (i : ℕ) (c : Component) (place : Spot) (scope : Scope) (texts : List ActText) (acts : List Act) → ActsPlan t i c place scope texts acts → lacks_return t i c place texts ≡ false → return_stands (is_some (returned_at t i place)) acts ≡ true }
    ensures length { (t : Described) (i : ℕ) (c : Component) (place : Spot) (scope : Scope) (texts : List ActText) (acts : List Act) → ActsPlan t i c place scope texts acts → length acts ≡ length texts }
{}

/// A law: in sound tables the actions that a caller's list is planned as suit.
pub fn planned_calls_suit()
    ensures suit { (t : Described) (scope : Scope) (texts : List ActText) (acts : List Act) → IsSoundFor t.model (Some t.topology) → CallsPlan t scope texts acts → suit_in_turn t (caller_act_suits t) scope acts ≡ true }
    ensures length { (t : Described) (scope : Scope) (texts : List ActText) (acts : List Act) → CallsPlan t scope texts acts → length acts ≡ length texts }
{}

/// A law: a handler's list is planned as one list of actions, and so is a caller's.
pub fn lists_are_planned_once()
    ensures handlers { (t : Described) (i : ℕ) (c : Component) (place : Spot) (scope : Scope) (texts : List ActText) (acts other : List Act) → ActsPlan t i c place scope texts acts → ActsPlan t i c place scope texts other → acts ≡ other }
    ensures callers { (t : Described) (scope : Scope) (texts : List ActText) (acts other : List Act) → CallsPlan t scope texts acts → CallsPlan t scope texts other → acts ≡ other }
{}
