ghost use Rattle.std.specs.Prelude.{◌≡◌, ◌++◌, ◌∷◌, [], Some, flat_map, option_map, IfOk};
ghost use Rattle.fp_meaning.specs.Layout.{expression_items, field_items};
ghost use Rattle.fp_meaning.specs.Names.{Path, in_optional};
ghost use Rattle.fp_tree.specs.declared.source.Source.{Source};
ghost use Rattle.fp_type_forms.specs.Resolved.{Takes, both_there, one_more};
ghost use Rattle.fp_type_forms.specs.Written.{FieldIs, FieldsAre, IsOnly, SizeIs, field_with, text_in};

use crate::kinds::kind_taken;
use crate::reading::size_taken;
use crate::resolving::Resolution;
use fp_base::{NoMemory, Row, Text, Value};
use fp_tables::{Field, Kind};
use fp_tree::{Expr, Field as Member, Str};
use std::alloc::Global;

/// The members of a struct, where each exists; the resolutions of what stands in them are passed.
pub fn fields_taken(
    alloc: Global,
    fields: &[Member],
    resolutions: &[Resolution],
    marks: &[Option<Value>],
    next: &mut usize,
) -> Result<Option<Row<Field>>, NoMemory>
    ensures { IfOk result (λ row. (source : Source) (scope : Path) → Takes source marks.now resolutions.now (flat_map (field_items scope) fields.now) next.old next.new (IsOnly (FieldsAre source scope fields.now) row)) }
{
    let mut row = Some(Row::new(alloc));
    for field in fields {
        let one = field_taken(alloc, field, resolutions, marks, next)?;
        row = with_one(row, one)?;
    }
    Ok(row)
}

/// With one more behind them, where both are there.
pub fn with_one<T: Drop>(row: Option<Row<T>>, one: Option<T>) -> Result<Option<Row<T>>, NoMemory>
    ensures { IfOk result (λ more. more ≡ one_more row one) }
{
    let Some(mut row) = row else {
        return Ok(None);
    };
    let Some(one) = one else {
        return Ok(None);
    };
    row.push(one)?;
    Ok(Some(row))
}

fn field_taken(
    alloc: Global,
    field: &Member,
    resolutions: &[Resolution],
    marks: &[Option<Value>],
    next: &mut usize,
) -> Result<Option<Field>, NoMemory>
    ensures { IfOk result (λ one. (source : Source) (scope : Path) → Takes source marks.now resolutions.now (field_items scope field.now) next.old next.new (IsOnly (FieldIs source scope field.now) one)) }
{
    let size = member_size(&field.size, resolutions, marks, next);
    let kind = kind_taken(&field.of.form, resolutions, marks, next);
    field_of(alloc, field, size, kind)
}

/// The size that is written of a member, where it is right.
fn member_size(
    size: &Option<Expr>,
    resolutions: &[Resolution],
    marks: &[Option<Value>],
    next: &mut usize,
) -> Option<Option<u32>>
    ensures { (source : Source) (scope : Path) → Takes source marks.now resolutions.now (in_optional (expression_items 0 scope) size.now) next.old next.new (IsOnly (SizeIs source scope size.now) result) }
{
    match size {
        None => Some(None),
        Some(_) => size_found(size_taken(256, resolutions, marks, next)),
    }
}

fn size_found(size: Option<u32>) -> Option<Option<u32>>
    ensures { result ≡ option_map (λ n. Some n) size }
{
    match size {
        Some(size) => Some(Some(size)),
        None => None,
    }
}

fn field_of(
    alloc: Global,
    field: &Member,
    size: Option<Option<u32>>,
    kind: Option<Kind>,
) -> Result<Option<Field>, NoMemory>
    ensures { IfOk result (λ one. one ≡ both_there (field_with field.now) size kind) }
{
    let Some(size) = size else {
        return Ok(None);
    };
    let Some(kind) = kind else {
        return Ok(None);
    };
    let name = field.name.text.copy(alloc)?;
    let format = text_copied(alloc, &field.format)?;
    let note = field.note.copy(alloc)?;
    Ok(Some(Field {
        name,
        size,
        kind,
        format,
        note,
    }))
}

/// A copy of the text of a literal, where there is one.
pub fn text_copied(alloc: Global, literal: &Option<Str>) -> Result<Option<Text>, NoMemory>
    ensures { IfOk result (λ copy. copy ≡ text_in literal.now) }
{
    match literal {
        Some(literal) => Ok(Some(literal.text.copy(alloc)?)),
        None => Ok(None),
    }
}
