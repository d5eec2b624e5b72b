ghost use Rattle.std.specs.Prelude.{◌≡◌, ◌<◌, ◌⊎◌, ◌↔◌, ℕ, None, Some, List, [], ◌∷◌, ◌++◌, true};
ghost use Rattle.fp_events.specs.SystemRun.{Told};
ghost use Rattle.fp_tables.specs.Lookup.{Described};
ghost use Rattle.fp_tables.specs.Sound.{IsSoundFor};
ghost use Rattle.fp_tables.specs.SoundPrograms.{IsSoundProgram};
ghost use Rattle.fp_tables.specs.declared.program.Program.{Program};
ghost use Rattle.fp_events.specs.declared.event.Arrival.{Arrival};
ghost use Rattle.fp_events.specs.declared.event.Ask.{Ask};
ghost use Rattle.fp_events.specs.declared.event.Ask.TheVariants as ask;
ghost use Rattle.fp_events.specs.declared.event.Entry.{Entry};
ghost use Rattle.fp_events.specs.Actor.{ActorState};
ghost use Rattle.fp_events.specs.Due.{due};
ghost use Rattle.fp_events.specs.Ends.{IsAtEnd};
ghost use Rattle.fp_events.specs.Fits.{actor_count, ask_fits};
ghost use Rattle.fp_tables.specs.Acts.{is_placed};
ghost use Rattle.fp_events.specs.Step.{core};
ghost use Rattle.fp_run_laws.specs.Notes.{note_fits};
ghost use Rattle.fp_run_laws.specs.Suits.{AllSuit, ends_asserted, results_from, returns_fit};

/// Of sound tables and a sound program the frames of each told trace suit: what is left of each list of actions suits what is
/// bound, and what a frame returns is of the type that is awaited.
pub fn suiting_frames()
    ensures { (tables : Described) (program : Program) → IsSoundFor tables.model (Some tables.topology) → IsSoundProgram tables program
        → (a : ℕ) (es : List Entry) (x : ActorState) → Told (core tables program) a es x → AllSuit tables program (results_from tables [] es) a x.thread.frames }
{}

/// Of sound tables and a sound program what is due after a told trace is due of an actor of the program and goes to an instance
/// of the topology; what it names is there, and its values have the kinds of their places. The note of an arrival that is due
/// fits its origin. Nothing is due exactly where the actor has halted, which it has where its last entry is an assert, or is at
/// its end.
pub fn due_asks()
    ensures fit { (tables : Described) (program : Program) → IsSoundFor tables.model (Some tables.topology) → IsSoundProgram tables program
        → (a : ℕ) (es : List Entry) (x : ActorState) → Told (core tables program) a es x
        → (i : ℕ) (ask : Ask) → due tables program a x.thread ≡ Some (i, ask)
        → (a < actor_count tables program) × (is_placed tables i ≡ true) × (ask_fits tables program i ask ≡ true) }
    ensures notes { (tables : Described) (program : Program) → IsSoundFor tables.model (Some tables.topology) → IsSoundProgram tables program
        → (a : ℕ) (es : List Entry) (x : ActorState) → Told (core tables program) a es x
        → (i : ℕ) (r : Arrival) → due tables program a x.thread ≡ Some (i, ask.Arrive r) → note_fits tables.model r.origin ≡ true }
    ensures none { (tables : Described) (program : Program) → IsSoundFor tables.model (Some tables.topology) → IsSoundProgram tables program
        → (a : ℕ) (es : List Entry) (x : ActorState) → a < actor_count tables program → Told (core tables program) a es x
        → (due tables program a x.thread ≡ None) ↔ ((x.thread.halted ≡ true) ⊎ IsAtEnd program a x.thread.frames) }
    ensures halted { (tables : Described) (program : Program) (a : ℕ) (es : List Entry) (x : ActorState)
        → Told (core tables program) a es x → x.thread.halted ≡ ends_asserted es }
{}

/// Of sound tables and a sound program a value that is returned in a told trace has the kind that the frame returns which it
/// closes.
pub fn returned_values()
    ensures { (tables : Described) (program : Program) → IsSoundFor tables.model (Some tables.topology) → IsSoundProgram tables program
        → (a : ℕ) (es : List Entry) (x : ActorState) → Told (core tables program) a es x
        → (before rest : List Entry) (e : Entry) → es ≡ before ++ e ∷ rest → returns_fit tables (results_from tables [] before) e.what ≡ true }
{}
