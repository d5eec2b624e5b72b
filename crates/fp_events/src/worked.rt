ghost use Rattle.std.specs.Prelude.{◌≡◌, [], ◌∷◌, true, false};
ghost use Rattle.fp_tables.specs.declared.component.Full.TheVariants as full;
ghost use Rattle.fp_events.specs.declared.event.Finish.TheVariants as finish;
ghost use Rattle.fp_events.specs.declared.event.What.TheVariants as what;
ghost use Rattle.fp_events.specs.Run.{IsRun};
ghost use Rattle.fp_events.specs.Ends.{EndsAs};
ghost use Rattle.fp_events.specs.Fits.{fits};
ghost use Rattle.fp_events.specs.FullQueue.{first_put, full_queue, hook_left, second, two_calls};
ghost use Rattle.fp_events.specs.HookHandler.{at_the_hook, at_the_port, handled_entries, three_calls, unhandled_entries};
ghost use Rattle.fp_events.specs.SignalValue.{move_by, sends_five, signalled, signalled_entries, signalled_idle, signalled_order};
ghost use Rattle.fp_events.specs.Worked.{Makes};

/// Two calls at a queue of one: the second is dropped, handed to the hook, which has no handler and is left at once, asserted
/// or blocked, as the policy says, and no entry of another policy stands there. The entries are a run in this order alone.
pub fn full_queue_log()
    ensures drop { EndsAs (full_queue full.Dropped) two_calls (first_put ∷ second what.Dropped ∷ []) finish.Complete }
    ensures hook { EndsAs (full_queue full.Hook) two_calls (first_put ∷ second what.Hooked ∷ hook_left ∷ []) finish.Complete }
    ensures assert { EndsAs (full_queue full.Assert) two_calls (first_put ∷ second what.Asserted ∷ []) finish.Asserted }
    ensures block { EndsAs (full_queue full.Block) two_calls (first_put ∷ []) finish.Stuck }
    ensures exchanged { IsRun (full_queue full.Dropped) two_calls (second what.Dropped ∷ first_put ∷ []) → ⊥ }
    ensures other_policy { IsRun (full_queue full.Assert) two_calls (first_put ∷ second what.Dropped ∷ []) → ⊥ }
{}

/// Three calls at a queue of one under `hook`: the hook handler runs on the caller and takes the call that waits, so that the
/// third one is put. Where the hook has no handler, or where the place itself has one, its frame is left at once.
pub fn hook_handler_log()
    ensures handled { Makes (full_queue full.Hook) (three_calls (at_the_hook ∷ [])) (0 ∷ 0 ∷ 0 ∷ 0 ∷ 0 ∷ 0 ∷ []) handled_entries finish.Complete
        ((6, 0 ∷ []) ∷ []) }
    ensures unhandled { Makes (full_queue full.Hook) (three_calls []) (0 ∷ 0 ∷ 0 ∷ 0 ∷ 0 ∷ []) unhandled_entries finish.Complete
        ((5, 0 ∷ []) ∷ []) }
    ensures own_handler { Makes (full_queue full.Hook) (three_calls (at_the_port ∷ [])) (0 ∷ 0 ∷ 0 ∷ 0 ∷ 0 ∷ []) unhandled_entries finish.Complete
        ((5, 0 ∷ []) ∷ []) }
{}

/// A signal with a value: the action that the machine does on the way has it, and writes it. An action that takes a value of
/// another type isn't given it.
pub fn signal_value_log()
    ensures made { Makes signalled sends_five signalled_order signalled_entries finish.Complete signalled_idle }
    ensures given { fits signalled sends_five 1 0 (move_by (0 ∷ [])) ≡ true }
    ensures other_type { fits signalled sends_five 1 0 (move_by (1 ∷ [])) ≡ false }
{}
