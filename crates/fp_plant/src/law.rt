ghost use Rattle.std.specs.Prelude.{◌≢◌};
ghost use mathlib.Core.List.{IsPrefix};
ghost use Rattle.fp_plant.specs.declared.plant.Stepped.{Stepped};
ghost use Rattle.fp_plant.specs.declared.plant.Stepped.TheVariants.{Took};
ghost use Rattle.fp_plant.specs.Planted.{Handed, StepAnswers, Rests};

/// What follows from a step's answer: the trace goes on, and whoever takes no step rests.
pub fn answered()
    ensures goes_on { (old : Handed) (r : Stepped) (new : Handed) → StepAnswers old r new → IsPrefix old.actor.trace new.actor.trace }
    ensures rests { (old : Handed) (r : Stepped) (new : Handed) → StepAnswers old r new → r ≢ Took → Rests new }
{}
