ghost use Rattle.std.specs.Prelude.{◌≡◌, ◌<◌, ◌≤◌, ◌↔◌, ℕ, Bool, Some, List, map, length, ◌∷◌, ◌++◌, is_some, not, true};
ghost use Rattle.std.specs.List.Sorted.{IsSortedBy, IsStableBy};
ghost use Rattle.fp_events.specs.System.{IsOneChange, IsTaking, Laws};
ghost use Rattle.fp_events.specs.SystemRun.{joined};
ghost use Rattle.fp_tables.specs.Lookup.{Described, placed};
ghost use Rattle.fp_tables.specs.Names.{numbers_differ};
ghost use Rattle.fp_tables.specs.declared.machine.Machine.{Machine};
ghost use Rattle.fp_tables.specs.declared.machine.Step.{Step};
ghost use Rattle.fp_tables.specs.declared.program.Program.{Program};
ghost use Rattle.fp_events.specs.declared.event.Ask.{Ask};
ghost use Rattle.fp_events.specs.declared.event.Entry.{Entry};
ghost use Rattle.fp_events.specs.declared.event.Finish.{Finish};
ghost use Rattle.fp_events.specs.declared.event.Finish.TheVariants.{Spent};
ghost use Rattle.fp_events.specs.Machine.{IsRanked, climb, goes, parent, target_of, upward};
ghost use Rattle.fp_events.specs.Instance.{Inside};
ghost use Rattle.fp_events.specs.Tells.{tells};
ghost use Rattle.fp_events.specs.Fits.{fits};
ghost use Rattle.fp_events.specs.Step.{core};
ghost use Rattle.fp_events.specs.Run.{World, actors, at, by, entry_lt, IsRising, HasStamp, RunTo, IsRun, IsKept, IsTold, Agree, AreRecords, history, trace};
ghost use Rattle.fp_events.specs.Ends.{IsEnded, HasNoDueStep, EndsAs};
ghost use Rattle.fp_events.specs.Waits.{is_there, waits};

/// The instances of any tables and the actors of any program are a system: what an instance makes of an ask has its number
/// and the next stamp, an actor takes only what answers its due ask, and takes all that answers it.
pub fn steps()
    ensures laws { (tables : Described) (program : Program) → Laws (core tables program) }
    ensures taking { (tables : Described) (program : Program) → IsTaking (core tables program) }
    ensures one_change { (tables : Described) (program : Program) → IsOneChange (core tables program) }
{}

/// Each prefix of a run is a run.
pub fn prefixes()
    ensures { (tables : Described) (program : Program) (before rest : List Entry)
        → IsRun tables program (before ++ rest) → IsRun tables program before }
{}

/// The entries of a run at an instance are a history of it, those of an actor are a trace of it, and these agree, also when
/// they are listed for the instances of the topology and the actors of the program.
pub fn projections()
    ensures kept { (tables : Described) (program : Program) (es : List Entry) → IsRun tables program es
        → (i : ℕ) → IsKept tables program i (at i es) }
    ensures told { (tables : Described) (program : Program) (es : List Entry) → IsRun tables program es
        → (a : ℕ) → IsTold tables program a (by a es) }
    ensures agree { (tables : Described) (program : Program) (es : List Entry) → IsRun tables program es
        → Agree tables program (λ i. at i es) (λ a. by a es) }
    ensures records { (tables : Described) (program : Program) (es : List Entry) → IsRun tables program es
        → AreRecords tables program (map (λ i. at i es) (placed tables)) (map (λ a. by a es) (actors tables program)) }
{}

/// Stamps rise along a history and along a trace, and so in a run at each instance and by each actor.
pub fn rising_stamps()
    ensures history { (tables : Described) (program : Program) (i : ℕ) (es : List Entry)
        → IsKept tables program i es → IsRising es }
    ensures trace { (tables : Described) (program : Program) (a : ℕ) (es : List Entry)
        → IsTold tables program a es → IsRising es }
    ensures instance { (tables : Described) (program : Program) (es : List Entry) → IsRun tables program es
        → (i : ℕ) → IsRising (at i es) }
    ensures actor { (tables : Described) (program : Program) (es : List Entry) → IsRun tables program es
        → (a : ℕ) → IsRising (by a es) }
{}

/// A list of entries is a run where those at each instance are a history of it, those of each actor are a trace of it, and
/// these agree.
pub fn decomposition()
    ensures { (tables : Described) (program : Program) (es : List Entry)
        → ((i : ℕ) → IsKept tables program i (at i es)) → ((a : ℕ) → IsTold tables program a (by a es))
        → Agree tables program (λ i. at i es) (λ a. by a es) → IsRun tables program es }
{}

/// Where each instance of a topology has a history and each actor a trace, and these agree, all entries by stamp and actor
/// are a run with these histories and traces. No instance stands twice in a sound topology.
pub fn merging()
    ensures { (tables : Described) (program : Program) (histories traces : List (List Entry))
        → numbers_differ (placed tables) ≡ true → AreRecords tables program histories traces
        → (es : List Entry) → IsSortedBy entry_lt es → IsStableBy entry_lt (joined histories) es
        → IsRun tables program es
        × ((i : ℕ) → at i es ≡ history tables program histories i)
        × ((a : ℕ) → by a es ≡ trace tables program traces a) }
{}

/// A run leaves one state of all instances and actors.
pub fn outcomes()
    ensures { (tables : Described) (program : Program) (es : List Entry) (v w : World)
        → RunTo tables program es v → RunTo tables program es w → v ≡ w }
{}

/// A run is ended exactly where no actor's due ask has a step within the limit, and exactly then it has an end. In a spent
/// run an entry has the limit as its stamp.
pub fn ends()
    ensures due { (tables : Described) (program : Program) (es : List Entry) (w : World) → RunTo tables program es w
        → IsEnded tables program es ↔ HasNoDueStep tables program w }
    ensures end { (tables : Described) (program : Program) (es : List Entry) → IsRun tables program es
        → IsEnded tables program es ↔ ((f : Finish) × EndsAs tables program es f) }
    ensures spent { (tables : Described) (program : Program) (es : List Entry) → 0 < program.steps
        → EndsAs tables program es Spent → HasStamp program.steps es }
{}

/// In each run the positions of an entry name something, and its values have the kinds of their places.
pub fn fitting_entries()
    ensures { (tables : Described) (program : Program) (es : List Entry) → IsRun tables program es
        → (before rest : List Entry) (e : Entry) → es ≡ before ++ e ∷ rest
        → fits tables program e.actor e.instance e.what ≡ true }
{}

/// The instance tells an entry for an ask of what is there exactly where no cause stands against it.
pub fn causes()
    ensures { (tables : Described) (program : Program) (i : ℕ) (inside : Inside) (ask : Ask) → is_there tables i inside ask ≡ true
        → is_some (tells tables program i inside ask) ≡ not (is_some (waits tables i inside ask)) }
{}

/// A machine's walks end by themselves: where parents stand before their children, and initial transitions and branches go to
/// vertices of lower rank, more steps than there are vertices change nothing.
pub fn walks()
    ensures upward { (m : Machine) → ((v p : ℕ) → parent m v ≡ Some p → p < v)
        → (n v : ℕ) → v < length m.vertices → length m.vertices ≤ n → climb m n (Some v) ≡ upward m (Some v) }
    ensures onward { (m : Machine) (answers : ℕ → List Bool) (rank : ℕ → ℕ) → IsRanked m rank
        → (n : ℕ) (around source : List ℕ) (step : Step) (asked : List ℕ)
        → rank (target_of step) < length m.vertices → length m.vertices ≤ n
        → goes m answers n around source step asked ≡ goes m answers (length m.vertices) around source step asked }
{}
