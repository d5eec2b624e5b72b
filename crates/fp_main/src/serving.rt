ghost use Rattle.std.specs.Prelude.{◌≡◌, ℕ, List, map};
ghost use Rattle.std.specs.String.{string_bytes};
ghost use Rattle.fp_main.specs.Delivery.{sink_run};
ghost use Rattle.fp_gather.specs.FilesRun.{files_run};
ghost use Rattle.fp_main.specs.Output.{Output};
ghost use Rattle.fp_main.specs.Words.{AsksFor};
ghost use Rattle.fp_main.specs.Causes.{UsageMeans, ReadFaultMeans, NoFileMeans, RefusedMeans, NoTopologyMeans, DoneMeans, StuckMeans, SpentMeans, AssertedMeans, WriteFaultMeans, NoMemoryMeans};
ghost use Rattle.fp_main.specs.Causes.{UsageComes, ReadFaultComes, NoFileComes, RefusedComes, NoTopologyComes, DoneComes, ScenarioRefusedComes, RunComes, MakeComes, WriteFaultComes};

use crate::answer::answer;
use crate::deliver::deliver;
use crate::status::Status;
use fp_base::NoMemory;
use fp_gather::one_reading;
use fp_outside::{Files, Gate, Sink};
use std::alloc::Global;
use std::sync::Wait;
use std::thread::Threads;

const NO_MEMORY: &str = "fpp: no memory\n";

/// What is due for the words and the files, written.
fn write_answer<R, F, O, E, G>(
    rt: &R,
    alloc: Global,
    words: &[String],
    files: &mut F,
    out: &mut O,
    diag: &mut E,
    gate: &G,
) -> Status
where
    R: Threads + Wait + Sync,
    F: Files,
    O: Sink,
    E: Sink,
    G: Gate,
    ensures unread { ((names : List (List ℕ)) → AsksFor (map string_bytes words.now) names → ⊥) → files.new ≡ files.old }
    ensures output { Output
        (map string_bytes words.now) (files_run F.told F.faults F.misses files.old files.new)
        (sink_run O.told O.faults out.old out.new) (sink_run E.told E.faults diag.old diag.new)
        result }
{
    match answer(rt, alloc, words, files, gate) {
        Ok(due) => deliver(
            due.status,
            due.output.as_slice(),
            due.line.as_slice(),
            out,
            diag,
        ),
        Err(NoMemory) => deliver(Status::NoMemory, &[], NO_MEMORY.as_bytes(), out, diag),
    }
}

/// Does what the words, without the program's name, ask for: `out` gets the text, and `diag` the one line that says why a call
/// ended otherwise. The output is made whole before its first byte is written. A run has a thread of `rt` for each of its actors, which
/// meet at `gate`.
pub fn serve<R, F, O, E, G>(
    rt: &R,
    alloc: Global,
    words: &[String],
    files: &mut F,
    out: &mut O,
    diag: &mut E,
    gate: &G,
) -> Status
where
    R: Threads + Wait + Sync,
    F: Files,
    O: Sink,
    E: Sink,
    G: Gate,
    // The whole: what is due for the words and the files, and how it is written.
    ensures output { Output
        (map string_bytes words.now) (files_run F.told F.faults F.misses files.old files.new)
        (sink_run O.told O.faults out.old out.new) (sink_run E.told E.faults diag.old diag.new)
        result }

    // Where words ask for no file, since they are wrong or ask for the load, none is read.
    ensures unread { ((names : List (List ℕ)) → AsksFor (map string_bytes words.now) names → ⊥) → files.new ≡ files.old }

    // What each status means.
    ensures usage { UsageMeans
        (map string_bytes words.now) (files_run F.told F.faults F.misses files.old files.new)
        (sink_run O.told O.faults out.old out.new) (sink_run E.told E.faults diag.old diag.new)
        result }
    ensures read_fault { ReadFaultMeans
        (map string_bytes words.now) (files_run F.told F.faults F.misses files.old files.new)
        (sink_run O.told O.faults out.old out.new) (sink_run E.told E.faults diag.old diag.new)
        result }
    ensures no_file { NoFileMeans
        (map string_bytes words.now) (files_run F.told F.faults F.misses files.old files.new)
        (sink_run O.told O.faults out.old out.new) (sink_run E.told E.faults diag.old diag.new)
        result }
    ensures refused { RefusedMeans
        (map string_bytes words.now) (files_run F.told F.faults F.misses files.old files.new)
        (sink_run O.told O.faults out.old out.new) (sink_run E.told E.faults diag.old diag.new)
        result }
    ensures no_topology { NoTopologyMeans
        (map string_bytes words.now) (files_run F.told F.faults F.misses files.old files.new)
        (sink_run O.told O.faults out.old out.new) (sink_run E.told E.faults diag.old diag.new)
        result }
    ensures done { DoneMeans
        (map string_bytes words.now) (files_run F.told F.faults F.misses files.old files.new)
        (sink_run O.told O.faults out.old out.new) (sink_run E.told E.faults diag.old diag.new)
        result }
    ensures stuck { StuckMeans
        (map string_bytes words.now) (files_run F.told F.faults F.misses files.old files.new)
        (sink_run O.told O.faults out.old out.new) (sink_run E.told E.faults diag.old diag.new)
        result }
    ensures spent { SpentMeans
        (map string_bytes words.now) (files_run F.told F.faults F.misses files.old files.new)
        (sink_run O.told O.faults out.old out.new) (sink_run E.told E.faults diag.old diag.new)
        result }
    ensures asserted { AssertedMeans
        (map string_bytes words.now) (files_run F.told F.faults F.misses files.old files.new)
        (sink_run O.told O.faults out.old out.new) (sink_run E.told E.faults diag.old diag.new)
        result }
    ensures write_fault { WriteFaultMeans
        (map string_bytes words.now) (files_run F.told F.faults F.misses files.old files.new)
        (sink_run O.told O.faults out.old out.new) (sink_run E.told E.faults diag.old diag.new)
        result }
    ensures no_memory { NoMemoryMeans
        (sink_run O.told O.faults out.old out.new) (sink_run E.told E.faults diag.old diag.new)
        result }

    // When each comes, unless memory is refused or a write fails.
    ensures usage_comes { UsageComes (map string_bytes words.now) result }
    ensures read_fault_comes { ReadFaultComes
        (files_run F.told F.faults F.misses files.old files.new) result }
    ensures no_file_comes { NoFileComes
        (map string_bytes words.now) (files_run F.told F.faults F.misses files.old files.new)
        result }
    ensures refused_comes { RefusedComes
        (map string_bytes words.now) (files_run F.told F.faults F.misses files.old files.new)
        result }
    ensures no_topology_comes { NoTopologyComes
        (map string_bytes words.now) (files_run F.told F.faults F.misses files.old files.new)
        result }
    ensures done_comes { DoneComes
        (map string_bytes words.now) (files_run F.told F.faults F.misses files.old files.new)
        (sink_run O.told O.faults out.old out.new) (sink_run E.told E.faults diag.old diag.new)
        result }
    ensures scenario_refused_comes { ScenarioRefusedComes
        (map string_bytes words.now) (files_run F.told F.faults F.misses files.old files.new)
        result }
    ensures run_comes { RunComes
        (map string_bytes words.now) (files_run F.told F.faults F.misses files.old files.new)
        (sink_run O.told O.faults out.old out.new) (sink_run E.told E.faults diag.old diag.new)
        result }
    ensures make_comes { MakeComes
        (map string_bytes words.now)
        (sink_run O.told O.faults out.old out.new) (sink_run E.told E.faults diag.old diag.new)
        result }
    ensures write_fault_comes { WriteFaultComes
        (sink_run O.told O.faults out.old out.new) (sink_run E.told E.faults diag.old diag.new)
        result }
{
    // for the clauses that say when a status comes
    one_reading();
    write_answer(rt, alloc, words, files, out, diag, gate)
}
