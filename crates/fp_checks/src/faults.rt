ghost use Rattle.std.specs.Prelude.{◌≢◌};

use crate::calls::{Due, MOST, call, compare, files, sink};
use crate::scenes::{SCENES, Scene};
use crate::texts::{COMMANDED, ONE_COMMAND};
use fp_base::{NoMemory, Row, Text};
use fp_main::Status;
use fp_outside::{MemSink, OpenGate};
use std::alloc::Global;
use std::sync::Wait;
use std::test::Fail;
use std::thread::Threads;

const WRITE_FAULT: &str = "fpp: write fault\n";

/// Which writes fail: those of the output, those of the line, or the first of the output and then those of the line.
#[derive(Clone, Copy)]
enum Failing {
    Out,
    Diag,
    Both,
}

fn whole(scene: &'static Scene) -> Due<'static> {
    Due {
        status: scene.status,
        out: scene.out.as_bytes(),
        diag: scene.diag.as_bytes(),
    }
}

// Compares what comes of a call, of which the read of this number fails, to what is due.
fn past<R: Threads + Wait + Sync>(
    rt: &R,
    alloc: Global,
    scene: &'static Scene,
    failing: (u64, (MemSink, MemSink)),
    due: &Due<'_>,
    differences: &mut Text,
) -> Result<(), NoMemory> {
    let (read, sinks) = failing;
    let mut files = files(alloc, scene.files, read)?;
    let outcome = call(rt, alloc, scene.words, &mut files, sinks, &OpenGate)?;
    compare(alloc, scene.words, &outcome, due, differences)
}

// ---- reads

fn past_read<R: Threads + Wait + Sync>(
    rt: &R,
    alloc: Global,
    scene: &'static Scene,
    read: u64,
    name: &str,
    differences: &mut Text,
) -> Result<(), NoMemory> {
    let sinks = (sink(alloc, 0)?, sink(alloc, 0)?);
    let line = format!(in alloc; "fpp: read fault {name}\n")?;
    let due = Due {
        status: Status::ReadFault,
        out: b"",
        diag: line.as_bytes(),
    };
    past(rt, alloc, scene, (read, sinks), &due, differences)
}

// The read of each file fails in turn. Says the number of the first read that there isn't.
fn past_reads<R: Threads + Wait + Sync>(
    rt: &R,
    alloc: Global,
    scene: &'static Scene,
    differences: &mut Text,
) -> Result<u64, NoMemory> {
    let mut read = 1u64;
    for name in scene.reads {
        past_read(rt, alloc, scene, read, name, differences)?;
        read = read.saturating_add(1);
    }
    Ok(read)
}

// The same, and then a read fails that there isn't.
fn past_all_reads<R: Threads + Wait + Sync>(
    rt: &R,
    alloc: Global,
    scene: &'static Scene,
    differences: &mut Text,
) -> Result<(), NoMemory> {
    let read = past_reads(rt, alloc, scene, differences)?;
    let sinks = (sink(alloc, 0)?, sink(alloc, 0)?);
    past(rt, alloc, scene, (read, sinks), &whole(scene), differences)
}

// ---- writes

fn sinks_of(alloc: Global, failing: Failing, write: u64) -> Result<(MemSink, MemSink), NoMemory> {
    let (out, diag) = match failing {
        Failing::Out => (write, 0),
        Failing::Diag => (0, write),
        Failing::Both => (1, write),
    };
    Ok((sink(alloc, out)?, sink(alloc, diag)?))
}

// What is due where so much was written before a write failed.
fn due_after(failing: Failing, written: &[u8]) -> Due<'_> {
    let (out, diag) = match failing {
        Failing::Out => (written, WRITE_FAULT.as_bytes()),
        Failing::Diag | Failing::Both => (b"".as_slice(), written),
    };
    Due {
        status: Status::WriteFault,
        out,
        diag,
    }
}

// What is written where writes fail, and what is due where all of it is.
fn text_and_end(scene: &'static Scene, failing: Failing) -> (&'static str, Due<'static>) {
    match failing {
        Failing::Out => (scene.out, whole(scene)),
        Failing::Diag => (scene.diag, whole(scene)),
        Failing::Both => (WRITE_FAULT, due_after(failing, WRITE_FAULT.as_bytes())),
    }
}

// Each write fails in turn, and then one that there isn't.
fn past_writes<R: Threads + Wait + Sync>(
    rt: &R,
    alloc: Global,
    scene: &'static Scene,
    failing: Failing,
    differences: &mut Text,
) -> Result<(), NoMemory> {
    let (text, end) = text_and_end(scene, failing);
    let mut written = Row::new(alloc);
    let mut write = 1u64;
    for piece in text.as_bytes().chunks(MOST) {
        let due = due_after(failing, written.as_slice());
        let sinks = sinks_of(alloc, failing, write)?;
        past(rt, alloc, scene, (0, sinks), &due, differences)?;
        written.extend_from_slice(piece)?;
        write = write.saturating_add(1);
    }
    let sinks = sinks_of(alloc, failing, write)?;
    past(rt, alloc, scene, (0, sinks), &end, differences)
}

// The output has room for so many bytes alone.
fn past_room<R: Threads + Wait + Sync>(
    rt: &R,
    alloc: Global,
    scene: &'static Scene,
    room: usize,
    differences: &mut Text,
) -> Result<(), NoMemory>
    requires { room ≢ 0 }
{
    let sinks = (MemSink::new(alloc, MOST, room)?, sink(alloc, 0)?);
    let due = match scene.out.as_bytes().get(..room) {
        Some(written) if room < scene.out.len() => due_after(Failing::Out, written),
        _ => whole(scene),
    };
    past(rt, alloc, scene, (0, sinks), &due, differences)
}

// Its log is one of several.
static OF_MANY_LOGS: Scene = Scene {
    words: "run D.Main s.json a.fpp",
    files: &[("a.fpp", COMMANDED), ("s.json", ONE_COMMAND)],
    reads: &["a.fpp", "s.json"],
    status: Status::Done,
    out: "",
    diag: "",
};

#[test]
fn reads_fail_in_turn(rt: HostRuntime) -> Result<(), Fail> {
    let mut differences = Text::new(rt.alloc());
    for scene in SCENES.iter() {
        past_all_reads(&rt, rt.alloc(), scene, &mut differences)?;
    }
    past_reads(&rt, rt.alloc(), &OF_MANY_LOGS, &mut differences)?;
    assert_eq!(rt; differences.as_str(), "");
    Ok(())
}

#[test]
fn writes_fail_in_turn(rt: HostRuntime) -> Result<(), Fail> {
    let mut differences = Text::new(rt.alloc());
    for scene in SCENES.iter() {
        past_writes(&rt, rt.alloc(), scene, Failing::Out, &mut differences)?;
        past_writes(&rt, rt.alloc(), scene, Failing::Diag, &mut differences)?;
    }
    past_writes(&rt, rt.alloc(), &SCENES[0], Failing::Both, &mut differences)?;
    assert_eq!(rt; differences.as_str(), "");
    Ok(())
}

#[test]
fn the_output_has_less_room_than_it_needs(rt: HostRuntime) -> Result<(), Fail> {
    let mut differences = Text::new(rt.alloc());
    for room in 1..100 {
        past_room(&rt, rt.alloc(), &SCENES[1], room, &mut differences)?;
        past_room(&rt, rt.alloc(), &SCENES[10], room, &mut differences)?;
    }
    assert_eq!(rt; differences.as_str(), "");
    Ok(())
}
