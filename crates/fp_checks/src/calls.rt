ghost use Rattle.std.specs.Prelude.{◌≢◌};

use fp_base::{NoMemory, Text};
use fp_main::{Status, serve};
use fp_outside::{Gate, MemFiles, MemSink};
use std::alloc::Global;
use std::str;
use std::sync::Wait;
use std::thread::Threads;

/// How many bytes a sink takes at each call.
pub const MOST: usize = 8;

// More than any call here writes.
const ROOM: usize = 4_096;

/// What a call answers, and what it leaves on its sinks.
#[derive(Drop)]
pub struct Outcome {
    pub status: Status,
    pub out: MemSink,
    pub diag: MemSink,
}

/// What a call is to answer and to leave.
#[derive(Clone, Copy)]
pub struct Due<'a> {
    pub status: Status,
    pub out: &'a [u8],
    pub diag: &'a [u8],
}

/// A sink of which the call of this number fails. With 0 none does.
pub fn sink(alloc: Global, failing: u64) -> Result<MemSink, NoMemory> {
    let mut sink = MemSink::new(alloc, MOST, ROOM)?;
    sink.fail_at(failing)?;
    Ok(sink)
}

/// Files of which the read of this number fails. With 0 none does.
pub fn files(alloc: Global, held: &[(&str, &str)], failing: u64) -> Result<MemFiles, NoMemory> {
    let mut files = MemFiles::new(alloc);
    for (name, text) in held {
        files.hold(alloc, name, text.as_bytes())?;
    }
    files.fail_at(failing)?;
    Ok(files)
}

fn words_of(alloc: Global, text: &str) -> Result<Vec<String>, NoMemory> {
    let mut words = Vec::new(alloc);
    for word in text.split(' ') {
        words.push(String::from_str(alloc, word)?)?;
    }
    Ok(words)
}

/// Calls `serve` with words that a blank parts.
pub fn call<R: Threads + Wait + Sync, G: Gate>(
    rt: &R,
    alloc: Global,
    words: &str,
    files: &mut MemFiles,
    sinks: (MemSink, MemSink),
    gate: &G,
) -> Result<Outcome, NoMemory> {
    let words = words_of(alloc, words)?;
    let (mut out, mut diag) = sinks;
    let status = serve(
        rt,
        alloc,
        words.as_slice(),
        files,
        &mut out,
        &mut diag,
        gate,
    );
    Ok(Outcome { status, out, diag })
}

/// The text of a sink.
pub fn text_of(sink: &MemSink) -> &str {
    str::from_utf8(sink.bytes()).unwrap_or("bytes that are no text")
}

/// What a call came to, in one line.
pub fn report(alloc: Global, name: &str, outcome: &Outcome) -> Result<Text, NoMemory> {
    let status = outcome.status.code();
    let out = text_of(&outcome.out);
    let diag = text_of(&outcome.diag);
    let line = format!(in alloc; "{name}: status {status}, out {out:?}, diag {diag:?}\n")?;
    Text::from_str(alloc, line.as_str())
}

/// Adds a line for a call that came to something else than what is due.
pub fn compare(
    alloc: Global,
    name: &str,
    outcome: &Outcome,
    due: &Due<'_>,
    differences: &mut Text,
) -> Result<(), NoMemory> {
    let is_due = outcome.status == due.status
        && outcome.out.bytes() == due.out
        && outcome.diag.bytes() == due.diag;
    if is_due {
        return Ok(());
    }
    differences.push_str(report(alloc, name, outcome)?.as_str())
}
