use crate::calls::{Outcome, call, files, report, sink, text_of};
use crate::gates::Meeting;
use crate::logs::{first_to_leave, guard_is_kept, has_entries_of};
use crate::texts::{FOUR_CALLERS, GUARDED};
use fp_base::{NoMemory, Text};
use fp_main::Status;
use std::alloc::Global;
use std::sync::Wait;
use std::test::Fail;
use std::thread::Threads;

const ON_ONE_THREAD: &str = "1 k0 a enter s[0] via caller ()
1 k1 b enter i[0] via caller ()
2 k0 a leave
2 k1 b leave
3 k2 a guard g[0] via caller ()
4 k2 a leave
5 k3 a guard g[0] via caller ()
6 k3 a leave
end complete
";

// What is wrong with the log of a run past the gate at which two meet. Nothing, if all is well.
fn fault_of_log(log: &str) -> &'static str {
    if !has_entries_of(log, ON_ONE_THREAD) {
        return "other entries";
    }
    if !guard_is_kept(log, "a") {
        return "a guard was taken that another held";
    }
    match first_to_leave(log, "a") {
        Some("k2" | "k3") => "",
        _ => "k0 left first, though it waited for another to leave",
    }
}

fn fault_of(gate: &Meeting, outcome: &Outcome) -> &'static str {
    if !gate.was_held() {
        return "two actors weren't inside two cells at one time";
    }
    if outcome.status != Status::Done || !outcome.diag.bytes().is_empty() {
        return "another status";
    }
    fault_of_log(text_of(&outcome.out))
}

fn differences<R: Threads + Wait + Sync>(rt: &R, alloc: Global) -> Result<Text, NoMemory> {
    let held = [("a.fpp", GUARDED), ("s.json", FOUR_CALLERS)];
    let mut files = files(alloc, &held, 0)?;
    let sinks = (sink(alloc, 0)?, sink(alloc, 0)?);
    let gate = Meeting::new();
    let outcome = call(rt, alloc, "run T s.json a.fpp", &mut files, sinks, &gate)?;
    match fault_of(&gate, &outcome) {
        "" => Ok(Text::new(alloc)),
        fault => report(alloc, fault, &outcome),
    }
}

#[test]
fn two_cells_are_held_at_one_time(rt: HostRuntime) -> Result<(), Fail> {
    assert_eq!(rt; differences(&rt, rt.alloc())?.as_str(), "");
    Ok(())
}
