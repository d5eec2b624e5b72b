ghost use Rattle.std.specs.Prelude.{◌≡◌, [], ◌∷◌, List, Some, codes, true};
ghost use Rattle.fp_tables.specs.Lookup.{Described};
ghost use Rattle.fp_tables.specs.Sound.{IsSoundFor};
ghost use Rattle.fp_tables.specs.SoundPrograms.{IsSoundProgram};
ghost use Rattle.fp_tables.specs.declared.program.Program.{Program};
ghost use Rattle.fp_events.specs.declared.event.Entry.{Entry};
ghost use Rattle.fp_events.specs.declared.event.Finish.TheVariants as finish;
ghost use Rattle.fp_events.specs.declared.event.What.TheVariants as what;
ghost use Rattle.fp_tables.specs.declared.component.Full.TheVariants as full;
ghost use Rattle.fp_events.specs.FullQueue.{first_put, full_queue, hook_left, second, two_calls};
ghost use Rattle.fp_events.specs.HookHandler.{at_the_hook, handled_entries, three_calls, unhandled_entries};
ghost use Rattle.fp_events.specs.Run.{IsRun};
ghost use Rattle.fp_events.specs.SignalValue.{sends_five, signalled, signalled_entries};
ghost use Rattle.fp_logtext.specs.Named.{are_named, set_and_save_commands};
ghost use Rattle.fp_logtext.specs.Fitting.{IsFitting};
ghost use Rattle.fp_logtext.specs.Log.{Log};

/// A run of sound tables and a sound program is fitting, and so meets the conditions of `print_log`.
pub fn fitting_runs()
    ensures fitting { (tables : Described) (program : Program) → IsSoundFor tables.model (Some tables.topology) → IsSoundProgram tables program
        → (es : List Entry) → IsRun tables program es → IsFitting tables program es }
    ensures printable { (tables : Described) (program : Program) → IsSoundFor tables.model (Some tables.topology) → IsSoundProgram tables program
        → (es : List Entry) → IsRun tables program es → (are_named tables program es ≡ true) × (set_and_save_commands tables es ≡ true) }
{}

/// Two calls at a queue of one, as their log says it.
pub fn full_queue_texts()
    ensures drop { Log (full_queue full.Dropped) two_calls (first_put ∷ second what.Dropped ∷ []) finish.Complete
        ≡ codes "1 k q put 1 i[0] via caller (1)\n2 k q drop i[0] via caller (2)\nend complete\n" }
    ensures hook { Log (full_queue full.Hook) two_calls (first_put ∷ second what.Hooked ∷ hook_left ∷ []) finish.Complete
        ≡ codes "1 k q put 1 i[0] via caller (1)\n2 k q hook i[0] via caller (2)\n3 k q leave\nend complete\n" }
    ensures assert { Log (full_queue full.Assert) two_calls (first_put ∷ second what.Asserted ∷ []) finish.Asserted
        ≡ codes "1 k q put 1 i[0] via caller (1)\n2 k q assert i[0] via caller (2)\nend asserted\n" }
    ensures block { Log (full_queue full.Block) two_calls (first_put ∷ []) finish.Stuck
        ≡ codes "1 k q put 1 i[0] via caller (1)\nend stuck\n" }
{}

/// Three calls at a queue of one under `hook`, with a hook handler that dispatches and without one, as their log says it.
pub fn hook_handler_texts()
    ensures handled { Log (full_queue full.Hook) (three_calls (at_the_hook ∷ [])) handled_entries finish.Complete
        ≡ codes "1 k q put 1 i[0] via caller (1)\n2 k q hook i[0] via caller (2)\n3 k q take 1 i[0] (1)\n4 k q done\n5 k q leave\n6 k q put 2 i[0] via caller (3)\nend complete\n" }
    ensures unhandled { Log (full_queue full.Hook) (three_calls []) unhandled_entries finish.Complete
        ≡ codes "1 k q put 1 i[0] via caller (1)\n2 k q hook i[0] via caller (2)\n3 k q leave\n4 k q hook i[0] via caller (3)\n5 k q leave\nend complete\n" }
{}

/// A signal with a value and the action that is given it, as their log says them.
pub fn signal_value_text()
    ensures { Log signalled sends_five signalled_entries finish.Complete
        ≡ codes "1 k c enter go[0] via caller ()\n2 k c put 1 signal m.s via self (5)\n3 k c leave\n4 @c c take 1 signal m.s (5)\n5 @c c start m [] A\n6 @c c move m s [a] A\n7 @c c write n unwired (5)\n8 @c c done\nend complete\n" }
{}
