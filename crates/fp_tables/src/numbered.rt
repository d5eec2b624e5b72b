ghost use Rattle.std.specs.Prelude.{◌≡◌, ℕ};

use crate::{Channel, Command, Event, Param};

/// What has an opcode or an id.
pub trait Numbered {
    ghost number_of: { Self → ℕ };

    fn number(&self) -> u32
        ensures { result ≡ number_of self.now };
}

impl Numbered for Command {
    ghost number_of = { λ numbered. numbered.opcode };

    fn number(&self) -> u32 {
        self.opcode
    }
}

impl Numbered for Event {
    ghost number_of = { λ numbered. numbered.id };

    fn number(&self) -> u32 {
        self.id
    }
}

impl Numbered for Channel {
    ghost number_of = { λ numbered. numbered.id };

    fn number(&self) -> u32 {
        self.id
    }
}

impl Numbered for Param {
    ghost number_of = { λ numbered. numbered.id };

    fn number(&self) -> u32 {
        self.id
    }
}
