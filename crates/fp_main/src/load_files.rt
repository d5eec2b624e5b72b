ghost use Rattle.std.specs.Prelude.{◌≡◌, Some, IfOk, IfSome};
ghost use Rattle.fp_main.specs.Held.{both_files};
ghost use Rattle.fp_main.specs.Load.{scenario_text, source_text};
ghost use Rattle.fp_outside.specs.Files.{bytes_of};

use crate::load_scenario::scenario_text;
use crate::load_source::source_text;
use fp_base::{NoMemory, Row};
use fp_outside::{Files, ReadRefusal};
use std::alloc::Global;

/// The name under which the load's source stands.
pub const SOURCE: &str = "make.fpp";

/// The name under which its scenario stands.
pub const SCENARIO: &str = "make.json";

/// The files of the load, of which no read fails.
#[derive(Drop)]
pub struct LoadFiles {
    pub source: Row<u8>,
    pub scenario: Row<u8>,
}

impl LoadFiles {
    /// Those with so many instances in a chain.
    pub fn new(alloc: Global, count: u32) -> Result<LoadFiles, NoMemory>
        ensures { IfOk result (λ files. files ≡ record { source = source_text count; scenario = scenario_text count }) }
    {
        let source = source_text(alloc, count)?;
        let scenario = scenario_text(alloc, count)?;
        Ok(LoadFiles { source, scenario })
    }

    /// A copy of what stands under a name, where something does.
    fn copy_of(&self, alloc: Global, name: &str) -> Result<Option<Row<u8>>, NoMemory>
        ensures { IfOk result (λ read. IfSome read (λ bytes. Some bytes ≡ bytes_of (both_files self.now.source self.now.scenario) name.now)) }
    {
        if name == SOURCE {
            Ok(Some(self.source.copy(alloc)?))
        } else if name == SCENARIO {
            Ok(Some(self.scenario.copy(alloc)?))
        } else {
            Ok(None)
        }
    }
}

impl Files for LoadFiles {
    ghost told = { λ files. Some (both_files files.source files.scenario) };

    ghost faults = { λ _. 0 };

    ghost misses = { λ _. 0 };

    // The load includes nothing, so nobody asks for a third name: of all answers want of memory promises least.
    fn read(&mut self, alloc: Global, name: &str) -> Result<Option<Row<u8>>, ReadRefusal> {
        match self.copy_of(alloc, name) {
            Ok(Some(bytes)) => Ok(Some(bytes)),
            Ok(None) => Err(ReadRefusal::NoMemory),
            Err(NoMemory) => Err(ReadRefusal::NoMemory),
        }
    }
}
