ghost use Rattle.std.specs.Prelude.{◌≡◌};
ghost use Rattle.std.specs.List.{list_all};
ghost use Rattle.fp_tables.specs.Formats.{suits, agree};
ghost use Rattle.fp_tables.specs.Components.{agrees_with_formals};

use fp_base::FormatPiece;
use fp_sound_types::is_integer;
use fp_tables::{Event, Formal, TypeDef};

/// Whether a field may show a formal.
fn suits(types: &[TypeDef], piece: &FormatPiece, formal: &Formal) -> bool
    ensures { result ≡ suits types.now piece.now formal.now }
{
    match piece {
        FormatPiece::Any => true,
        _ => is_integer(types, formal.kind),
    }
}

fn agree(types: &[TypeDef], pieces: &[FormatPiece], formals: &[Formal]) -> bool
    ensures { result ≡ agree types.now pieces.now formals.now }
{
    let mut rest = formals.iter();
    for piece in pieces {
        match piece {
            FormatPiece::Plain(_) => {}
            _ => match rest.next() {
                Some(formal) => {
                    if !suits(types, piece, formal) {
                        return false;
                    }
                }
                None => return false,
            },
        }
    }
    rest.next().is_none()
}

fn agrees_with_formals(types: &[TypeDef], event: &Event) -> bool
    ensures { result ≡ agrees_with_formals types.now event.now }
{
    agree(
        types,
        event.fields.parts.as_slice(),
        event.formals.as_slice(),
    )
}

/// Whether the fields of each event agree with its formals.
pub fn fields_agree_with_formals(types: &[TypeDef], events: &[Event]) -> bool
    ensures { result ≡ list_all (agrees_with_formals types.now) events.now }
{
    events.iter().all(|event| agrees_with_formals(types, event))
}
