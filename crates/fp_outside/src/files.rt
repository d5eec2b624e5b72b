ghost use Rattle.std.specs.Prelude.{◌≡◌, List, ℕ, Option, IfOk, IfSome};
ghost use Rattle.fp_outside.specs.Files.{bytes_of, CountsFault, CountsMiss};

use fp_base::{Row, Text};
use std::alloc::Global;

/// Why a file isn't read.
#[derive(Clone, Copy)]
pub enum ReadRefusal {
    Failed,
    NoMemory,
}

/// A name and the bytes that it stands for.
#[derive(Drop)]
pub struct HeldFile {
    pub name: Text,
    pub bytes: Row<u8>,
}

/// Files by their names.
pub trait Files {
    ghost use Rattle.fp_outside.specs.declared.files.HeldFile.{HeldFile};

    /// What is held, where the files tell it: of two of one name the later one counts.
    ghost told: { Self → Option (List HeldFile) };

    /// How many reads failed.
    ghost faults: { Self → ℕ };

    /// How many reads found nothing.
    ghost misses: { Self → ℕ };

    /// The bytes under a name; None where there is no such file.
    fn read(&mut self, alloc: Global, name: &str) -> Result<Option<Row<u8>>, ReadRefusal>
        ensures told { told self.new ≡ told self.old }
        ensures faults { CountsFault result (faults self.old) (faults self.new) }
        ensures misses { CountsMiss result (misses self.old) (misses self.new) }
        ensures bytes { IfOk result (λ read. IfSome (told self.old) (λ held. read ≡ bytes_of held name.now)) };
}
