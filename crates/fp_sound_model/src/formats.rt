ghost use Rattle.std.specs.Prelude.{◌≡◌, ◌++◌, flat_map, false, true, OnOk, IfOk};
ghost use Rattle.fp_base.specs.Formats.{doubled, spelled, are_whole};
ghost use Rattle.fp_tables.specs.Formats.{is_plain};
ghost use Rattle.fp_tables.specs.Components.{reads_its_format};

use fp_base::{FormatPiece, NoMemory, Row};
use fp_tables::Event;
use std::alloc::Global;

/// Whether an event's fields are those of its format as it is written.
pub fn reads_its_format(alloc: Global, event: &Event) -> Result<bool, NoMemory>
    ensures { IfOk result (λ reads. reads ≡ reads_its_format event.now) }
{
    let mut text = Row::new(alloc);
    write_pieces(event.fields.parts.as_slice(), &mut text)?;
    let spelled = text.as_slice() == event.format.as_bytes();
    Ok(spelled && are_whole(event.fields.parts.as_slice()))
}

fn write_pieces(pieces: &[FormatPiece], out: &mut Row<u8>) -> Result<(), NoMemory>
    ensures { OnOk result (out.new ≡ out.old ++ flat_map spelled pieces.now) }
{
    for piece in pieces {
        write_piece(piece, out)?;
    }
    Ok(())
}

fn write_piece(piece: &FormatPiece, out: &mut Row<u8>) -> Result<(), NoMemory>
    ensures { OnOk result (out.new ≡ out.old ++ spelled piece.now) }
{
    match piece {
        FormatPiece::Plain(text) => write_plain(text.as_bytes(), out),
        FormatPiece::Any => out.extend_from_slice(b"{}"),
        FormatPiece::Dec => out.extend_from_slice(b"{d}"),
        FormatPiece::Hex => out.extend_from_slice(b"{x}"),
        FormatPiece::Oct => out.extend_from_slice(b"{o}"),
        FormatPiece::Char => out.extend_from_slice(b"{c}"),
    }
}

fn write_plain(text: &[u8], out: &mut Row<u8>) -> Result<(), NoMemory>
    ensures { OnOk result (out.new ≡ out.old ++ flat_map doubled text.now) }
{
    for byte in text {
        write_doubled(*byte, out)?;
    }
    Ok(())
}

fn write_doubled(byte: u8, out: &mut Row<u8>) -> Result<(), NoMemory>
    ensures { OnOk result (out.new ≡ out.old ++ doubled byte) }
{
    if byte == b'{' || byte == b'}' {
        out.push(byte)?;
    }
    out.push(byte)
}

/// Whether no text is empty, and no two texts stand side by side.
fn are_whole(pieces: &[FormatPiece]) -> bool
    ensures { result ≡ are_whole false pieces.now }
{
    let mut after_plain = false;
    for piece in pieces {
        match piece {
            FormatPiece::Plain(text) => {
                if after_plain || text.len() == 0 {
                    return false;
                }
                after_plain = true;
            }
            _ => after_plain = false,
        }
    }
    true
}
