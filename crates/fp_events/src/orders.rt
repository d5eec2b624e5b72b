ghost use Rattle.std.specs.Prelude.{◌≡◌, ◌++◌, ◌∷◌, [], ℕ, List};
ghost use Rattle.fp_tables.specs.Lookup.{Described};
ghost use Rattle.fp_tables.specs.declared.program.Program.{Program};
ghost use Rattle.fp_events.specs.declared.event.Arrival.{Arrival};
ghost use Rattle.fp_events.specs.declared.event.Entry.{Entry};
ghost use Rattle.fp_events.specs.declared.event.What.TheVariants as what;
ghost use Rattle.fp_events.specs.Run.{at, IsRun, IsTold};
ghost use Rattle.fp_events.specs.QueueOrder.{IsByPolicy, IsInOrder, untaken_from};
ghost use Rattle.fp_events.specs.Frames.{Pairs, open_frames, open_from};
ghost use Rattle.fp_events.specs.GuardOrder.{IsLetIn};

/// In each run, at each instance: a put comes where fewer calls than the queue size are untaken; a drop, hook or assert where
/// that many are, by the policy of its place; a take takes the earliest untaken call of the greatest priority; and nothing is
/// untaken at an empty dispatch.
pub fn queue_order()
    ensures { (tables : Described) (program : Program) (es : List Entry) → IsRun tables program es
        → (before rest : List Entry) (e : Entry) → es ≡ before ++ e ∷ rest
        → IsInOrder tables e.instance (untaken_from tables e.instance [] (at e.instance before)) e.what }
{}

/// In each trace a drop, a hook and an assert come only by the policy of their place, so that there is none under block.
pub fn overflow_policies()
    ensures { (tables : Described) (program : Program) (a : ℕ) (es : List Entry) → IsTold tables program a es
        → (before rest : List Entry) (e : Entry) → es ≡ before ++ e ∷ rest → IsByPolicy tables e.instance e.what }
{}

/// Frames pair as brackets in each trace, and in each run by each actor: a leave closes the frame of an enter, a guard, a set,
/// a save or a hook, and a done that of a take, which is the innermost that is open, at the instance where it was opened.
pub fn frames_pair()
    ensures told { (tables : Described) (program : Program) (a : ℕ) (es : List Entry) → IsTold tables program a es
        → (before rest : List Entry) (e : Entry) → es ≡ before ++ e ∷ rest → Pairs (open_from [] before) e }
    ensures run { (tables : Described) (program : Program) (es : List Entry) → IsRun tables program es
        → (before rest : List Entry) (e : Entry) → es ≡ before ++ e ∷ rest → Pairs (open_frames e.actor before) e }
{}

/// A hook opens a frame of its actor, and puts nothing: what was untaken before it is untaken after it, and no take has it.
pub fn hooked_calls()
    ensures frame { (es : List Entry) (e : Entry) (arrival : Arrival) → e.what ≡ what.Hooked arrival
        → open_frames e.actor (es ++ e ∷ []) ≡ e ∷ open_frames e.actor es }
    ensures untaken { (tables : Described) (es : List Entry) (e : Entry) (arrival : Arrival) → e.what ≡ what.Hooked arrival
        → untaken_from tables e.instance [] (at e.instance (es ++ e ∷ [])) ≡ untaken_from tables e.instance [] (at e.instance es) }
{}

/// In each run a guarded arrival comes only where no frame of a guarded arrival is open at its instance.
pub fn guard_order()
    ensures { (tables : Described) (program : Program) (es : List Entry) → IsRun tables program es
        → (before rest : List Entry) (e : Entry) → es ≡ before ++ e ∷ rest → IsLetIn before e }
{}
