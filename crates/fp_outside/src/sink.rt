ghost use Rattle.std.specs.Prelude.{◌≡◌, List, ℕ, Option, [], IfOk, Ok};
ghost use Rattle.fp_outside.specs.Sinks.{TakesFront, told_after, CountsFailure};

/// A write failed, and nothing of its piece was written.
#[derive(Clone, Copy)]
pub struct SinkFailed;

/// Where bytes are written to.
pub trait Sink {
    /// What was written, where the sink tells it.
    ghost told: { Self → Option (List ℕ) };

    /// How many writes failed.
    ghost faults: { Self → ℕ };

    /// Writes a front of the piece, and answers its length.
    fn write(&mut self, bytes: &[u8]) -> Result<usize, SinkFailed>
        ensures takes { IfOk result (TakesFront bytes.now) }
        ensures told { told self.new ≡ told_after result bytes.now (told self.old) }
        ensures faults { CountsFailure result (faults self.old) (faults self.new) }
        ensures empty { bytes.now ≡ [] → result ≡ Ok 0 };
}
