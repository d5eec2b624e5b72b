ghost use Rattle.std.specs.Prelude.{◌≡◌};
ghost use Rattle.fp_running.specs.Turns.{is_above, is_step};

use fp_events::Why;

/// What a turn of an actor comes to: a step at an instance, with its stamp; none now at the instance that its due ask goes to;
/// none within the limit; or no ask, of a caller whose list is through or of an actor that has halted.
#[derive(Clone, Copy, PartialEq, Eq)]
pub enum Turn {
    Stepped { instance: u32, stamp: u64 },
    NotYet { instance: u32, why: Why },
    AtLimit,
    AtEnd,
    Halted,
}

impl Turn {
    pub fn is_step(self) -> bool
        ensures { result ≡ is_step self }
    {
        matches!(self, Turn::Stepped { .. })
    }

    pub(crate) fn is_above(self) -> bool
        ensures { result ≡ is_above self }
    {
        matches!(self, Turn::AtLimit)
    }
}
