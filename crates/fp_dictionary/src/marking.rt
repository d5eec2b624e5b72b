ghost use Rattle.std.specs.Prelude.{◌≡◌, true, set, map, OnOk};
ghost use Rattle.fp_tables.specs.Types.{kinds_in};
ghost use Rattle.fp_tables.specs.declared.kind.Field.{Field};
ghost use Rattle.fp_tables.specs.declared.kind.Kind.TheVariants.{Named};
ghost use Rattle.fp_dictionary.specs.Marks.{is_new, kinds_at, marks_of, with_mark, with_marks};

use fp_base::{NoMemory, Row};
use fp_tables::{Field, Form, Kind, TypeDef};
use std::mem::replace;

/// Types that are marked: a flag for each of the table, and the positions of those that are marked, as they came.
#[derive(Drop)]
pub struct Marked {
    pub flags: Vec<bool>,
    pub order: Row<u32>,
}

/// Sets a flag, and says whether there is one that wasn't set.
fn set_flag(flags: &mut Vec<bool>, at: u32) -> bool
    ensures new { result ≡ is_new flags.old.items at }
    ensures set { flags.new.items ≡ set flags.old.items at true }
{
    match flags.get_mut(at as usize) {
        Some(flag) => !replace(flag, true),
        None => false,
    }
}

fn mark_at(marks: &mut Marked, at: u32) -> Result<(), NoMemory>
    ensures { OnOk result (marks_of marks.new ≡ with_mark (marks_of marks.old) (Named at)) }
{
    if set_flag(&mut marks.flags, at) {
        marks.order.push(at)
    } else {
        Ok(())
    }
}

fn mark(marks: &mut Marked, kind: Kind) -> Result<(), NoMemory>
    ensures { OnOk result (marks_of marks.new ≡ with_mark (marks_of marks.old) kind) }
{
    match kind {
        Kind::Named(at) => mark_at(marks, at),
        _ => Ok(()),
    }
}

pub fn mark_all(marks: &mut Marked, kinds: &[Kind]) -> Result<(), NoMemory>
    ensures { OnOk result (marks_of marks.new ≡ with_marks (marks_of marks.old) kinds.now) }
{
    for kind in kinds {
        mark(marks, *kind)?;
    }
    Ok(())
}

fn mark_fields(marks: &mut Marked, fields: &[Field]) -> Result<(), NoMemory>
    ensures { OnOk result (marks_of marks.new ≡ with_marks (marks_of marks.old) (map (λ (f : Field). f.kind) fields.now)) }
{
    for field in fields {
        mark(marks, field.kind)?;
    }
    Ok(())
}

fn mark_form(marks: &mut Marked, form: &Form) -> Result<(), NoMemory>
    ensures { OnOk result (marks_of marks.new ≡ with_marks (marks_of marks.old) (kinds_in form.now)) }
{
    match form {
        Form::Abstract => Ok(()),
        Form::Alias(kind) => mark(marks, *kind),
        Form::Array { element, .. } => mark(marks, *element),
        Form::Struct(fields) => mark_fields(marks, fields.as_slice()),
        Form::Enum { repr, .. } => mark(marks, *repr),
    }
}

/// Marks the types that stand in the one at a position.
pub fn mark_uses(marks: &mut Marked, types: &[TypeDef], at: u32) -> Result<(), NoMemory>
    ensures { OnOk result (marks_of marks.new ≡ with_marks (marks_of marks.old) (kinds_at types.now at)) }
{
    match types.get(at as usize) {
        Some(definition) => mark_form(marks, &definition.form),
        None => Ok(()),
    }
}
