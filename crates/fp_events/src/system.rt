//! The laws of runs of a system of instances and actors, over any such system.

ghost use Rattle.std.specs.Prelude.{List, ℕ, Some, map, length, nat_eq, ◌<◌, ◌≤◌, ◌≡◌, ◌++◌, ◌↔◌};
ghost use Rattle.std.specs.List.{IsDistinct};
ghost use Rattle.std.specs.List.Sorted.{IsSortedBy, IsStableBy};
ghost use Rattle.fp_events.specs.System.{System, Laws, IsTaking, IsOneChange};
ghost use Rattle.fp_events.specs.SystemRun.{World, Run, IsRun, IsKept, IsTold, Kept, Told, IsStamped, Agree, HasStamp, IsSeen, Mergeable, IsStuck, NoDueStep, IsEnded, Rises, at, by, row_of, joined, opening, entry_lt};
ghost use Rattle.fp_events.specs.Schedule.{schedule, replayed};

/// Each prefix of a run is a run.
pub fn prefix<S, A, Q, E>()
    ensures { (system : System S A Q E) (before rest : List E) → IsRun system (before ++ rest) → IsRun system before }
{}

/// The projections of a run to its instances and its actors are histories and traces that agree and
/// leave the world that the run leaves, and its stamps are Lamport's.
pub fn projections<S, A, Q, E>()
    ensures mergeable { (system : System S A Q E) → Laws system → (es : List E) (v : World S A) → Run system (opening system) es v
        → Mergeable system (λ i. at system i es) (λ a. by system a es) v }
    ensures stamped { (system : System S A Q E) → Laws system → (es : List E) → IsRun system es → IsStamped system es }
{}

/// Stamps rise along a history and along a trace.
pub fn rising<S, A, Q, E>()
    ensures history { (system : System S A Q E) → Laws system → (i : ℕ) (es : List E) → IsKept system i es → Rises system.stamp 0 es }
    ensures trace { (system : System S A Q E) → Laws system → (a : ℕ) (es : List E) → IsTold system a es → Rises system.stamp 0 es }
{}

/// A list of entries is a run where its projections to the instances are kept, those to the actors
/// are told, and its stamps are Lamport's.
pub fn decomposition<S, A, Q, E>()
    ensures by_stamps { (system : System S A Q E) → Laws system → (es : List E) (v : World S A) → IsStamped system es
        → ((i : ℕ) → Kept system i (at system i es) (v.instances i)) → ((a : ℕ) → Told system a (by system a es) (v.actors a)) → Run system (opening system) es v }
    ensures by_agreement { (system : System S A Q E) → Laws system → (histories traces : ℕ → List E) (v : World S A)
        → Mergeable system histories traces v → (es : List E)
        → ((i : ℕ) → at system i es ≡ histories i) → ((a : ℕ) → by system a es ≡ traces a) → Run system (opening system) es v }
{}

/// All entries of histories that agree with traces, sorted by stamp and actor, are a run with these histories and traces.
pub fn merging<S, A, Q, E>()
    ensures { (system : System S A Q E) → Laws system → (histories traces : ℕ → List E) (v : World S A)
        → Mergeable system histories traces v → (all es : List E) → ((i : ℕ) → at system i all ≡ histories i)
        → IsSortedBy (entry_lt system) es → IsStableBy (entry_lt system) all es
        → Run system (opening system) es v × ((i : ℕ) → at system i es ≡ histories i) × ((a : ℕ) → by system a es ≡ traces a) }
{}

/// Histories of distinct instances, one after the other, have all their entries: those at an instance are its history.
pub fn joining<S, A, Q, E>()
    ensures { (system : System S A Q E) → Laws system → (instances : List ℕ) (histories : List (List E))
        → length histories ≤ length instances → IsDistinct nat_eq instances
        → ((i : ℕ) → IsKept system i (row_of instances histories i))
        → (i : ℕ) → at system i (joined histories) ≡ row_of instances histories i }
{}

/// Histories agree with traces where each entry has the stamp of its actor that was seen, and what an
/// actor left in a history is what its trace has there.
pub fn seen_stamps<S, A, Q, E>()
    ensures { (system : System S A Q E) (held : ℕ → List (E × ℕ)) (traces : ℕ → List E) → IsSeen system held traces
        → ((a : ℕ) → Rises system.stamp 0 (traces a)) → Agree system (λ i. map (λ p. p.0) (held i)) traces }
{}

/// Histories and traces that agree go on as a run goes on from the world that they leave.
pub fn continuing<S, A, Q, E>()
    ensures { (system : System S A Q E) → Laws system → (histories traces : ℕ → List E) (w v : World S A)
        → Mergeable system histories traces w → (es more : List E)
        → ((i : ℕ) → at system i es ≡ histories i) → ((a : ℕ) → by system a es ≡ traces a) → Run system w more v
        → Mergeable system (λ i. histories i ++ at system i more) (λ a. traces a ++ by system a more) v }
{}

/// What actors do in any order, by computing, is a run.
pub fn scheduling<S, A, Q, E>()
    ensures { (system : System S A Q E) → IsTaking system → (order : List ℕ) (es : List E) (v : World S A)
        → schedule system (opening system) order ≡ Some (es, v) → Run system (opening system) es v }
{}

/// A list is a run exactly where its actors, in its order, make it by computing.
pub fn replaying<S, A, Q, E>()
    ensures { (system : System S A Q E) → IsTaking system → (es : List E) → IsRun system es ↔ (replayed system es ≡ Some es) }
{}

/// A run has one outcome, and it is ended where the world that it leaves has no step. A trace has one
/// outcome, and so has a history where an entry changes its instance in one way.
pub fn outcome<S, A, Q, E>()
    ensures one { (system : System S A Q E) (es : List E) (u v : World S A) → Run system (opening system) es u → Run system (opening system) es v → u ≡ v }
    ensures ended { (system : System S A Q E) (es : List E) (v : World S A) → Run system (opening system) es v → IsEnded system es ↔ IsStuck system v }
    ensures spent { (system : System S A Q E) → Laws system → (es : List E) (v : World S A) → Run system (opening system) es v → 0 < system.steps
        → (a i : ℕ) (ask : Q) (s : S) (e : E) → system.instance_part i (v.instances i) a ask (system.actor_stamp (v.actors a)) ≡ Some (e, s)
        → system.steps < system.stamp e → HasStamp system.stamp system.steps es }
    ensures stuck { (system : System S A Q E) → IsTaking system → (v : World S A) → IsStuck system v ↔ NoDueStep system v }
    ensures trace { (system : System S A Q E) (a : ℕ) (es : List E) (t u : A) → Told system a es t → Told system a es u → t ≡ u }
    ensures history { (system : System S A Q E) → IsOneChange system → (i : ℕ) (es : List E) (t u : S) → Kept system i es t → Kept system i es u → t ≡ u }
{}
