ghost use Rattle.std.specs.Prelude.{◌≡◌, map};
ghost use Rattle.std.specs.String.{string_bytes};
ghost use Rattle.fp_gather.specs.FilesRun.{files_run};
ghost use Rattle.fp_gather.specs.gathering.Gathered.{Gathers};

mod concluding;
mod including;
mod judging;
mod laws;
mod placing;
mod progress;
mod reading;
mod walking;

use concluding::conclude;
use fp_base::{NoMemory, Refusal, Text};
use fp_outside::Files;
use fp_tree::Source;
use judging::judge;
pub use judging::name_of;
pub use laws::{in_files_read, names_are_names, one_reading, places_in_files};
use progress::nothing_read;
use std::alloc::Global;
use walking::walk_files;

/// Why files give no source: a rule that they break, with the name of its file; the name of one that isn't there, or whose read failed.
#[derive(Drop)]
pub enum Halt {
    Broken { refusal: Refusal, file: Text },
    NoFile(Text),
    ReadFault(Text),
    NoMemory,
}

impl From<NoMemory> for Halt {
    ghost use Rattle.fp_gather.specs.declared.gathering.Halt.TheVariants.{NoMemory};

    ghost from_gives = { λ _ halt. halt ≡ NoMemory };

    fn from(_: NoMemory) -> Halt {
        Halt::NoMemory
    }
}

/// Reads the files of these names, each followed by the files that it includes, and puts members in place of includes. All files are read,
/// also behind one that breaks a rule; rules of names are looked for only where an include breaks its own, since both are of one phase.
pub fn gather<F: Files>(alloc: Global, names: &[String], files: &mut F) -> Result<Source, Halt>
    ensures gathers { Gathers (map string_bytes names.now) (files_run F.told F.faults F.misses files.old files.new) result }
    ensures told { F.told files.new ≡ F.told files.old }
{
    // for the file in which a rule is broken
    in_files_read();
    let mut progress = nothing_read(alloc);
    let units = walk_files(alloc, files, &mut progress, names)?;
    let concluded = conclude(alloc, progress, units)?;
    judge(alloc, concluded)
}
