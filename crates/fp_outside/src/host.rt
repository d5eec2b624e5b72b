ghost use Rattle.std.specs.Prelude.{◌≡◌, ◌↔◌, None, Ok, Err, ◌<◌, ◌≤◌, length, IfOk, IfSome, IsErrAnd};
ghost use Rattle.std.specs.IoError.{error_kind};
ghost use Rattle.fp_outside.specs.Files.{CountsFault, CountsMiss, IsLeft, most_bytes};

use crate::count::risen;
use crate::files::{Files, ReadRefusal};
use crate::sink::{Sink, SinkFailed};
use fp_base::Row;
use std::alloc::Global;
use std::io::{ErrorKind, Read, Stderr, Stdout, Write};
use std::{fs, io, rt};

/// The most bytes that are read of a file: 64 MiB.
const MOST_BYTES: u64 = 67_108_864;

/// The real files. They tell no content.
#[derive(Drop)]
pub struct HostFiles<'a, R: rt::Files> {
    pub rt: &'a R,
    pub faults: u64,
    pub misses: u64,
}

impl<'a, R: rt::Files> HostFiles<'a, R> {
    pub fn new(rt: &'a R) -> HostFiles<'a, R>
        ensures { (result.faults ≡ 0) × (result.misses ≡ 0) }
    {
        HostFiles {
            rt,
            faults: 0,
            misses: 0,
        }
    }
}

/// Why a file wasn't read.
enum Trouble {
    Absent,
    Failed,
    NoMemory,
}

/// The bytes that a reader has left, where they are no more than the limit.
fn read_all<S: Read + Drop>(alloc: Global, reader: S) -> Result<Row<u8>, Trouble>
    ensures bytes { IfOk result (IsLeft (S.remaining reader)) }
    ensures there { result ≡ Err Trouble.Absent → ⊥ }
{
    let mut bytes = Vec::new(alloc);
    match reader.take(MOST_BYTES + 1).read_to_end(&mut bytes) {
        Ok(_) => within_limit(bytes),
        Err(error) => Err(failure_of(error.kind())),
    }
}

/// The bytes, where they are no more than the limit.
fn within_limit(bytes: Vec<u8>) -> Result<Row<u8>, Trouble>
    ensures bytes { IfOk result (λ row. (row ≡ bytes.items) × (length row ≤ most_bytes)) }
    ensures there { result ≡ Err Trouble.Absent → ⊥ }
{
    if bytes.len() as u64 > MOST_BYTES {
        Err(Trouble::Failed)
    } else {
        Ok(Row::from_vec(bytes))
    }
}

/// The bytes of a file that was opened, or wasn't.
fn read_opened<S: Read + Drop>(alloc: Global, opened: io::Result<S>) -> Result<Row<u8>, Trouble>
    ensures bytes { IfOk result (λ bytes. (file : S) × (opened ≡ Ok file) × IsLeft (S.remaining file) bytes) }
    ensures absent { (result ≡ Err Trouble.Absent) ↔ IsErrAnd opened (λ e. error_kind e ≡ ErrorKind.NotFound) }
{
    match opened {
        Ok(file) => read_all(alloc, file),
        Err(error) => Err(trouble_of(error.kind())),
    }
}

/// Why a file isn't opened: a name that isn't found is no fault.
fn trouble_of(kind: ErrorKind) -> Trouble
    ensures { (result ≡ Trouble.Absent) ↔ (kind ≡ ErrorKind.NotFound) }
{
    match kind {
        ErrorKind::NotFound => Trouble::Absent,
        other => failure_of(other),
    }
}

fn failure_of(kind: ErrorKind) -> Trouble
    ensures { result ≡ Trouble.Absent → ⊥ }
{
    match kind {
        ErrorKind::OutOfMemory => Trouble::NoMemory,
        _ => Trouble::Failed,
    }
}

impl<'a, R: rt::Files> Files for HostFiles<'a, R> {
    ghost told = { λ _. None };

    ghost faults = { λ files. files.faults };

    ghost misses = { λ files. files.misses };

    fn read(&mut self, alloc: Global, name: &str) -> Result<Option<Row<u8>>, ReadRefusal>
        ensures faults { CountsFault result self.old.faults self.new.faults }
        ensures misses { CountsMiss result self.old.misses self.new.misses }
        ensures most { IfOk result (λ read. IfSome read (λ bytes. length bytes ≤ most_bytes)) }
    {
        match read_opened(alloc, fs::open(self.rt, name)) {
            Ok(bytes) => Ok(Some(bytes)),
            Err(Trouble::Absent) => {
                self.misses = risen(self.misses);
                Ok(None)
            }
            Err(Trouble::Failed) => {
                self.faults = risen(self.faults);
                Err(ReadRefusal::Failed)
            }
            Err(Trouble::NoMemory) => Err(ReadRefusal::NoMemory),
        }
    }
}

/// A stream of the process. It tells no content.
#[derive(Drop)]
pub struct HostSink<W: Write + Drop> {
    pub stream: W,
    pub faults: u64,
}

/// Standard output.
pub type HostOut = HostSink<Stdout>;

/// Standard error.
pub type HostErr = HostSink<Stderr>;

impl<W: Write + Drop> HostSink<W> {
    pub fn new(stream: W) -> HostSink<W>
        ensures { result ≡ record { stream = stream; faults = 0 } }
    {
        HostSink { stream, faults: 0 }
    }
}

/// How many bytes a stream took, at least one.
fn write_some<W: Write>(stream: &mut W, bytes: &[u8]) -> Option<usize>
    ensures { IfSome result (λ taken. (0 < taken) × (taken ≤ length bytes.now)) }
{
    for _ in 0..u64::MAX {
        match stream.write(bytes) {
            Ok(0) => return None,
            Ok(taken) => return Some(taken),
            Err(error) if error.kind() == ErrorKind::Interrupted => {}
            Err(_) => return None,
        }
    }
    None
}

impl<W: Write + Drop> Sink for HostSink<W> {
    ghost told = { λ _. None };

    ghost faults = { λ sink. sink.faults };

    fn write(&mut self, bytes: &[u8]) -> Result<usize, SinkFailed> {
        if bytes.is_empty() {
            return Ok(0);
        }
        match write_some(&mut self.stream, bytes) {
            Some(taken) => Ok(taken),
            None => {
                self.faults = risen(self.faults);
                Err(SinkFailed)
            }
        }
    }
}
