ghost use Rattle.std.specs.Prelude.{◌≡◌, ◌<◌, ◌⊎◌, ℕ, suc, max, None, Some, List, [], ◌∷◌, ◌++◌, map, option_map, true};
ghost use Rattle.fp_events.specs.SystemRun.{Kept, Told, Step};
ghost use Rattle.fp_tables.specs.Lookup.{Described};
ghost use Rattle.fp_tables.specs.declared.program.Program.{Program};
ghost use Rattle.fp_events.specs.declared.event.Ask.{Ask};
ghost use Rattle.fp_events.specs.declared.event.Entry.{Entry};
ghost use Rattle.fp_events.specs.declared.event.Finish.{Finish};
ghost use Rattle.fp_events.specs.declared.event.Why.{Why};
ghost use Rattle.fp_events.specs.Actor.{ActorState};
ghost use Rattle.fp_events.specs.Due.{due};
ghost use Rattle.fp_events.specs.Ends.{EndsAs, next_stamp};
ghost use Rattle.fp_events.specs.Instance.{InstanceState};
ghost use Rattle.fp_events.specs.QueueOrder.{untaken_from};
ghost use Rattle.fp_events.specs.Run.{World, at, by, last_stamp, RunTo, AreRecords};
ghost use Rattle.fp_events.specs.Step.{core, instance_part, answers_due};
ghost use Rattle.fp_events.specs.Waits.{waits};
ghost use Rattle.fp_run_laws.specs.Seen.{AreSeen, IsTimed, entries, with_stamps};

/// Where a cause stands against an ask, the instance has no step for it, whatever the ask names.
pub fn waiting()
    ensures { (tables : Described) (program : Program) (i a seen : ℕ) (s : InstanceState) (ask : Ask) (why : Why)
        → waits tables i s.inside ask ≡ Some why → instance_part tables program i s a ask seen ≡ None }
{}

/// The state that a history leaves has its last stamp, and so has the state that a trace leaves.
pub fn last_stamps()
    ensures history { (tables : Described) (program : Program) (i : ℕ) (es : List Entry) (s : InstanceState)
        → Kept (core tables program) i es s → s.last ≡ last_stamp es }
    ensures trace { (tables : Described) (program : Program) (a : ℕ) (es : List Entry) (x : ActorState)
        → Told (core tables program) a es x → x.last ≡ last_stamp es }
{}

/// What an instance makes of the ask that is due of an actor answers it, and has a stamp above the actor's last one.
pub fn answering()
    ensures answers { (tables : Described) (program : Program) (a i : ℕ) (s u : InstanceState) (x : ActorState) (ask : Ask) (e : Entry)
        → due tables program a x.thread ≡ Some (i, ask) → instance_part tables program i s a ask x.last ≡ Some (e, u)
        → option_map (answers_due tables program a e) (due tables program a x.thread) ≡ Some true }
    ensures above { (tables : Described) (program : Program) (a i : ℕ) (s u : InstanceState) (x : ActorState) (ask : Ask) (e : Entry)
        → instance_part tables program i s a ask x.last ≡ Some (e, u) → x.last < e.stamp }
{}

/// One entry more of a trace stands with the last stamp before it. A history stays timed by one entry more whose stamp is one
/// more than the greater of the last stamp and the one that was seen.
pub fn one_entry_more()
    ensures trace { (es : List Entry) (e : Entry) → with_stamps (es ++ e ∷ []) ≡ with_stamps es ++ (e, last_stamp es) ∷ [] }
    ensures history { (ps : List (Entry × ℕ)) (e : Entry) (seen : ℕ) → IsTimed ps
        → e.stamp ≡ suc (max (last_stamp (entries ps)) seen) → IsTimed (ps ++ (e, seen) ∷ []) }
{}

/// Histories whose entries stand with the stamps that were seen, and the traces of which they are the parts, are records that
/// agree.
pub fn seen_records()
    ensures { (tables : Described) (program : Program) (held : List (List (Entry × ℕ))) (traces : List (List Entry))
        → AreSeen tables program held traces → AreRecords tables program (map entries held) traces }
{}

/// A list with the histories and the traces of a run is a run that leaves the same world, and it has the run's end.
pub fn same_world()
    ensures world { (tables : Described) (program : Program) (es fs : List Entry) (w : World) → RunTo tables program es w
        → ((i : ℕ) → at i fs ≡ at i es) → ((a : ℕ) → by a fs ≡ by a es) → RunTo tables program fs w }
    ensures end { (tables : Described) (program : Program) (es fs : List Entry) (f : Finish) → EndsAs tables program es f
        → ((i : ℕ) → at i fs ≡ at i es) → ((a : ℕ) → by a fs ≡ by a es) → EndsAs tables program fs f }
{}

/// A step makes possible only steps with a greater stamp: any other that comes next was there before, with the same stamp,
/// be it within the limit or above it.
pub fn steps_rise()
    ensures stamp { (tables : Described) (program : Program) (w v : World) (e : Entry) → Step (core tables program) w e v
        → (a n : ℕ) → next_stamp tables program v a ≡ Some n → (next_stamp tables program w a ≡ Some n) ⊎ (e.stamp < n) }
    ensures step { (tables : Described) (program : Program) (w v u : World) (e f : Entry) → Step (core tables program) w e v
        → Step (core tables program) v f u → ((x : World) × Step (core tables program) w f x) ⊎ (e.stamp < f.stamp) }
{}

/// What is pending at an instance after a history is what the history leaves untaken, and so in a run.
pub fn untaken_is_pending()
    ensures history { (tables : Described) (program : Program) (i : ℕ) (es : List Entry) (s : InstanceState)
        → Kept (core tables program) i es s → s.inside.pending ≡ untaken_from tables i [] es }
    ensures run { (tables : Described) (program : Program) (es : List Entry) (w : World) → RunTo tables program es w
        → (i : ℕ) → (w.instances i).inside.pending ≡ untaken_from tables i [] (at i es) }
{}
