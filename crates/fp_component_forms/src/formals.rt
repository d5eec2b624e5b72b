ghost use Rattle.std.specs.Prelude.{IfOk};
ghost use Rattle.fp_meaning.specs.Layout.{formal_items, formals_items};
ghost use Rattle.fp_meaning.specs.Names.{Path};
ghost use Rattle.fp_tree.specs.declared.source.Source.{Source};
ghost use Rattle.fp_type_forms.specs.Resolved.{Takes};
ghost use Rattle.fp_component_forms.specs.Taken.{FormalWhere, FormalsWhere};

use crate::adding::with_one;
use crate::reading::type_taken;
use fp_base::{NoMemory, Row, Value};
use fp_tree::Formal;
use fp_type_forms::Resolution;
use fp_written_parts::WrittenFormal;
use std::alloc::Global;

/// Formal parameters; what stands in their types is passed.
pub fn formals_taken(
    alloc: Global,
    formals: &[Formal],
    resolutions: &[Resolution],
    marks: &[Option<Value>],
    next: &mut usize,
) -> Result<Row<WrittenFormal>, NoMemory>
    ensures { IfOk result (λ row. (source : Source) (scope : Path) → Takes source marks.now resolutions.now (formals_items scope formals.now) next.old next.new (FormalsWhere source scope formals.now row)) }
{
    let mut row = Row::new(alloc);
    for formal in formals {
        let one = formal_taken(alloc, formal, resolutions, marks, next)?;
        row = with_one(row, one)?;
    }
    Ok(row)
}

fn formal_taken(
    alloc: Global,
    formal: &Formal,
    resolutions: &[Resolution],
    marks: &[Option<Value>],
    next: &mut usize,
) -> Result<WrittenFormal, NoMemory>
    ensures { IfOk result (λ one. (source : Source) (scope : Path) → Takes source marks.now resolutions.now (formal_items scope formal.now) next.old next.new (FormalWhere source scope formal.now one)) }
{
    let kind = type_taken(&formal.of, resolutions, marks, next);
    let name = formal.name.text.copy(alloc)?;
    let note = formal.note.copy(alloc)?;
    Ok(WrittenFormal {
        name,
        at: formal.name.at.first,
        kind,
        by_ref: formal.by_ref,
        note,
    })
}
