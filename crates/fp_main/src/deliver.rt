ghost use Rattle.std.specs.Prelude.{◌≡◌, length};
ghost use Rattle.fp_main.specs.Delivery.{Written, Delivered, sink_run};

use crate::status::Status;
use fp_outside::{Sink, SinkFailed};

const WRITE_FAULT: &str = "fpp: write fault\n";

/// Writes the whole piece; false where a write failed.
fn write_all<S: Sink>(sink: &mut S, bytes: &[u8]) -> bool
    ensures { Written result bytes.now (sink_run S.told S.faults sink.old sink.new) }
{
    let mut at = 0;
    'pieces: while at < bytes.len() {
        match sink.write(&bytes[at..]) {
            Ok(taken) => at += taken,
            Err(SinkFailed) => return false,
        }
    }
    true
}

/// Writes the output and then the line. After a failed write the status is that of a write fault in place of any other.
pub fn deliver<O: Sink, E: Sink>(
    status: Status,
    output: &[u8],
    line: &[u8],
    out: &mut O,
    diag: &mut E,
) -> Status
    ensures { Delivered status output.now line.now (sink_run O.told O.faults out.old out.new) (sink_run E.told E.faults diag.old diag.new) result }
{
    if write_all(out, output) {
        if write_all(diag, line) {
            status
        } else {
            Status::WriteFault
        }
    } else {
        let _ = write_all(diag, WRITE_FAULT.as_bytes());
        Status::WriteFault
    }
}
