ghost use Rattle.std.specs.Prelude.{◌≡◌, ℕ, List, IfOk};
ghost use Rattle.fp_base.specs.declared.format.FormatPiece.{FormatPiece};
ghost use Rattle.fp_formats.specs.Spelling.{IsFormat};
ghost use Rattle.fp_dictdefs.specs.declared.listed.Listed.{Listed};
ghost use Rattle.fp_components.specs.Resolved.{IsEvent, IsId, severity_code};
ghost use Rattle.fp_components.specs.Whole.{IsWholeEvent};

use crate::formals::formals_of;
use crate::numbers::throttle_of;
use fp_base::{Format, NoMemory, Row, Text};
use fp_formats::{FormatFault, read_format};
use fp_tables::Event;
use fp_tree::Severity;
use fp_written_parts::WrittenEvent;
use std::alloc::Global;

pub fn event_of(alloc: Global, event: &WrittenEvent, id: u32) -> Result<Event, NoMemory>
    ensures { (listed : List Listed) (k : ℕ) → IsId listed k id → IsWholeEvent event.now → IfOk result (IsEvent listed k event.now) }
{
    let fields = fields_of(alloc, &event.format)?;
    let formals = formals_of(alloc, event.formals.as_slice())?;
    let name = event.name.copy(alloc)?;
    let format = event.format.copy(alloc)?;
    let note = event.note.copy(alloc)?;
    Ok(Event {
        name,
        id,
        severity: severity_code(event.severity),
        formals,
        format,
        fields,
        throttle: throttle_of(event.throttle),
        note,
    })
}

fn severity_code(severity: Severity) -> u8
    ensures { result ≡ severity_code severity }
{
    match severity {
        Severity::ActivityHigh => 0,
        Severity::ActivityLow => 1,
        Severity::Command => 2,
        Severity::Diagnostic => 3,
        Severity::Fatal => 4,
        Severity::WarningHigh => 5,
        Severity::WarningLow => 6,
    }
}

/// The format that a text is, an empty one where it is none.
fn fields_of(alloc: Global, text: &Text) -> Result<Format, NoMemory>
    ensures { (parts : List FormatPiece) → IsFormat text.now parts → IfOk result (λ format. IsFormat text.now format.parts) }
{
    match read_format(alloc, text) {
        Ok(format) => Ok(format),
        Err(fault) => no_format(alloc, fault),
    }
}

fn no_format(alloc: Global, fault: FormatFault) -> Result<Format, NoMemory>
    ensures { fault ≡ FormatFault.NoMemory → IfOk result (λ format. ⊥) }
{
    match fault {
        FormatFault::NoMemory => Err(NoMemory),
        FormatFault::Field => Ok(empty_format(alloc)),
        FormatFault::Brace => Ok(empty_format(alloc)),
    }
}

fn empty_format(alloc: Global) -> Format {
    Format {
        parts: Row::new(alloc),
    }
}
