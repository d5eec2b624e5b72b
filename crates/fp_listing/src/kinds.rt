ghost use Rattle.std.specs.Prelude.{◌≡◌, ◌++◌, map, OnOk};
ghost use Rattle.std.specs.Option.{option_copied};
ghost use Rattle.fp_tables.specs.Words.{way_word, full_word};
ghost use Rattle.fp_base.specs.Rendered.{joined};
ghost use Rattle.fp_listing.specs.Kinds.{type_name, kind_text, formal_text, formals_text, result_text, queue_text};

use fp_base::{NoMemory, Row};
use fp_logtext::{push_name, push_number, push_text};
use fp_tables::{Formal, Full, Kind, TypeDef, Way};

fn push_type_name(types: &[TypeDef], kind: u32, out: &mut Row<u8>) -> Result<(), NoMemory>
    ensures { OnOk result (out.new ≡ out.old ++ type_name types.now kind) }
{
    match types.get(kind as usize) {
        Some(kind) => push_text(out, kind.name.as_str()),
        None => Ok(()),
    }
}

/// Adds a type, as it is used.
pub fn push_kind(types: &[TypeDef], kind: Kind, out: &mut Row<u8>) -> Result<(), NoMemory>
    ensures { OnOk result (out.new ≡ out.old ++ kind_text types.now kind) }
{
    match kind {
        Kind::U8 => push_text(out, "U8"),
        Kind::U16 => push_text(out, "U16"),
        Kind::U32 => push_text(out, "U32"),
        Kind::U64 => push_text(out, "U64"),
        Kind::I8 => push_text(out, "I8"),
        Kind::I16 => push_text(out, "I16"),
        Kind::I32 => push_text(out, "I32"),
        Kind::I64 => push_text(out, "I64"),
        Kind::Bool => push_text(out, "bool"),
        Kind::Str { size } => {
            push_text(out, "string ")?;
            push_text(out, "size ")?;
            push_number(out, size)
        }
        Kind::Named(kind) => push_type_name(types, kind, out),
    }
}

fn push_formal(types: &[TypeDef], formal: &Formal, out: &mut Row<u8>) -> Result<(), NoMemory>
    ensures { OnOk result (out.new ≡ out.old ++ formal_text types.now formal.now) }
{
    if formal.by_ref {
        push_text(out, "ref ")?;
    }
    push_text(out, formal.name.as_str())?;
    push_text(out, ": ")?;
    push_kind(types, formal.kind, out)
}

/// Adds formal parameters in parentheses.
pub fn push_formals(
    types: &[TypeDef],
    formals: &[Formal],
    out: &mut Row<u8>,
) -> Result<(), NoMemory>
    ensures { OnOk result (out.new ≡ out.old ++ formals_text types.now formals.now) }
{
    push_text(out, "(")?;
    for (at, formal) in formals.iter().enumerate() {
        if at > 0 {
            push_text(out, ", ")?;
        }
        push_formal(types, formal, out)?;
    }
    push_text(out, ")")
}

/// Adds what a result adds to a port.
pub fn push_result(
    types: &[TypeDef],
    given: Option<Kind>,
    out: &mut Row<u8>,
) -> Result<(), NoMemory>
    ensures { OnOk result (out.new ≡ out.old ++ result_text types.now given) }
{
    match given {
        Some(kind) => {
            push_text(out, " -> ")?;
            push_kind(types, kind, out)
        }
        None => Ok(()),
    }
}

fn push_full(full: Full, out: &mut Row<u8>) -> Result<(), NoMemory>
    ensures { OnOk result (out.new ≡ out.old ++ full_word full) }
{
    let word = match full {
        Full::Assert => "assert",
        Full::Block => "block",
        Full::Dropped => "drop",
        Full::Hook => "hook",
    };
    push_text(out, word)
}

/// Adds whether something goes through the queue, and whether it is under the guard.
pub fn push_way(way: Way, out: &mut Row<u8>) -> Result<(), NoMemory>
    ensures { OnOk result (out.new ≡ out.old ++ way_word way) }
{
    let word = match way {
        Way::Later { .. } => "async",
        Way::Sync => "sync",
        Way::Guarded => "guarded",
    };
    push_text(out, word)
}

/// Adds the priority and what a full queue does, of what goes through the queue.
pub fn push_queueing(way: Way, out: &mut Row<u8>) -> Result<(), NoMemory>
    ensures { OnOk result (out.new ≡ out.old ++ queue_text way) }
{
    match way {
        Way::Later { priority, full } => {
            push_text(out, " priority ")?;
            push_number(out, priority)?;
            push_text(out, " ")?;
            push_full(full, out)
        }
        Way::Sync => Ok(()),
        Way::Guarded => Ok(()),
    }
}
