ghost use Rattle.std.specs.Prelude.{◌≡◌, ◌∷◌, ◌++◌, [], ℕ, ◌↔◌, Contains, Some, IfOk, IsErrOf, OnOk, OnErr};
ghost use Rattle.std.specs.Option.{option_copied};
ghost use Rattle.fp_outside.specs.Counts.{next_call};
ghost use Rattle.fp_outside.specs.Files.{bytes_of, CountsFault, CountsMiss};

use crate::count::{is_among, risen};
use crate::files::{Files, HeldFile, ReadRefusal};
use fp_base::{NoMemory, Row, Text};
use std::alloc::Global;

/// Files in memory, of which some reads fail. Reads count from 1.
#[derive(Drop)]
pub struct MemFiles {
    pub held: Row<HeldFile>,
    /// The numbers of the reads that fail.
    pub failing: Row<u64>,
    /// How many reads there were.
    pub reads: u64,
    pub faults: u64,
    pub misses: u64,
}

/// Files in memory of which no read fails.
#[derive(Drop)]
pub struct SureFiles {
    pub held: Row<HeldFile>,
    pub misses: u64,
}

/// Adds a file.
fn add_file(
    alloc: Global,
    held: &mut Row<HeldFile>,
    name: &str,
    bytes: &[u8],
) -> Result<(), NoMemory>
    ensures ok { OnOk result (held.new ≡ held.old ++ record { name = name.now; bytes = bytes.now } ∷ []) }
    ensures err { OnErr result (held.new ≡ held.old) }
{
    let name = Text::from_str(alloc, name)?;
    let bytes = Row::from_slice(alloc, bytes)?;
    held.push(HeldFile { name, bytes })
}

/// The bytes of the last file of a name.
fn look_up<'a>(held: &'a [HeldFile], name: &str) -> Option<&'a Row<u8>>
    ensures { option_copied result ≡ bytes_of held.now name.now }
{
    let mut found = None;
    for file in held {
        if file.name.as_str() == name {
            found = Some(&file.bytes);
        }
    }
    found
}

/// A copy of the bytes under a name.
fn copy_of(alloc: Global, held: &[HeldFile], name: &str) -> Result<Option<Row<u8>>, NoMemory>
    ensures { IfOk result (λ read. read ≡ bytes_of held.now name.now) }
{
    match look_up(held, name) {
        Some(bytes) => Ok(Some(bytes.copy(alloc)?)),
        None => Ok(None),
    }
}

impl MemFiles {
    /// No files, and no faults. Takes no memory.
    pub fn new(alloc: Global) -> MemFiles
        ensures held { result.held ≡ [] }
        ensures failing { result.failing ≡ [] }
        ensures counts { (result.reads ≡ 0) × (result.faults ≡ 0) × (result.misses ≡ 0) }
    {
        MemFiles {
            held: Row::new(alloc),
            failing: Row::new(alloc),
            reads: 0,
            faults: 0,
            misses: 0,
        }
    }

    /// Holds a file from now on.
    pub fn hold(&mut self, alloc: Global, name: &str, bytes: &[u8]) -> Result<(), NoMemory>
        ensures ok { OnOk result (self.new ≡ record self.old { held = self.old.held ++ record { name = name.now; bytes = bytes.now } ∷ [] }) }
        ensures err { OnErr result (self.new ≡ self.old) }
    {
        add_file(alloc, &mut self.held, name, bytes)
    }

    /// Lets the read of this number fail.
    pub fn fail_at(&mut self, call: u64) -> Result<(), NoMemory>
        ensures ok { OnOk result (self.new ≡ record self.old { failing = self.old.failing ++ call ∷ [] }) }
        ensures err { OnErr result (self.new ≡ self.old) }
    {
        self.failing.push(call)
    }
}

impl Files for MemFiles {
    ghost told = { λ files. Some files.held };

    ghost faults = { λ files. files.faults };

    ghost misses = { λ files. files.misses };

    fn read(&mut self, alloc: Global, name: &str) -> Result<Option<Row<u8>>, ReadRefusal>
        ensures told { self.new.held ≡ self.old.held }
        ensures faults { CountsFault result self.old.faults self.new.faults }
        ensures misses { CountsMiss result self.old.misses self.new.misses }
        ensures bytes { IfOk result (λ read. read ≡ bytes_of self.old.held name.now) }
        ensures failing { self.new.failing ≡ self.old.failing }
        ensures number { self.new.reads ≡ next_call self.old.reads }
        ensures fails { IsErrOf result ReadRefusal.Failed ↔ Contains self.old.failing (next_call self.old.reads) }
    {
        self.reads = risen(self.reads);
        if is_among(self.failing.as_slice(), self.reads) {
            self.faults = risen(self.faults);
            return Err(ReadRefusal::Failed);
        }
        match copy_of(alloc, self.held.as_slice(), name) {
            Ok(Some(bytes)) => Ok(Some(bytes)),
            Ok(None) => {
                self.misses = risen(self.misses);
                Ok(None)
            }
            Err(NoMemory) => Err(ReadRefusal::NoMemory),
        }
    }
}

impl SureFiles {
    /// No files. Takes no memory.
    pub fn new(alloc: Global) -> SureFiles
        ensures held { result.held ≡ [] }
        ensures misses { result.misses ≡ 0 }
    {
        SureFiles {
            held: Row::new(alloc),
            misses: 0,
        }
    }

    /// Holds a file from now on.
    pub fn hold(&mut self, alloc: Global, name: &str, bytes: &[u8]) -> Result<(), NoMemory>
        ensures ok { OnOk result (self.new ≡ record self.old { held = self.old.held ++ record { name = name.now; bytes = bytes.now } ∷ [] }) }
        ensures err { OnErr result (self.new ≡ self.old) }
    {
        add_file(alloc, &mut self.held, name, bytes)
    }
}

impl Files for SureFiles {
    ghost told = { λ files. Some files.held };

    ghost faults = { λ _. 0 };

    ghost misses = { λ files. files.misses };

    fn read(&mut self, alloc: Global, name: &str) -> Result<Option<Row<u8>>, ReadRefusal>
        ensures told { self.new.held ≡ self.old.held }
        ensures misses { CountsMiss result self.old.misses self.new.misses }
        ensures bytes { IfOk result (λ read. read ≡ bytes_of self.old.held name.now) }
        ensures sure { IsErrOf result ReadRefusal.Failed → ⊥ }
    {
        match copy_of(alloc, self.held.as_slice(), name) {
            Ok(Some(bytes)) => Ok(Some(bytes)),
            Ok(None) => {
                self.misses = risen(self.misses);
                Ok(None)
            }
            Err(NoMemory) => Err(ReadRefusal::NoMemory),
        }
    }
}
