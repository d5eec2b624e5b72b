ghost use Rattle.std.specs.Prelude.{◌≡◌, ◌++◌, ◌∷◌, [], None, option_map, IfOk};
ghost use Rattle.fp_meaning.specs.Layout.{array_items, enum_items, part_items, struct_items, type_items};
ghost use Rattle.fp_meaning.specs.Values.{dotted};
ghost use Rattle.fp_tree.specs.declared.definition.Def.TheVariants as def;
ghost use Rattle.fp_tree.specs.declared.source.Source.{Source};
ghost use Rattle.fp_type_forms.specs.Resolved.{AreResolved, AreWrittenIn, IsWrittenBy, both_there};
ghost use Rattle.fp_tables.specs.declared.kind.Form.TheVariants as form;
ghost use Rattle.fp_type_forms.specs.Written.{text_in, type_here};

use crate::constants::constants_taken;
use crate::fields::{fields_taken, text_copied};
use crate::kinds::{kind_taken, repr_taken};
use crate::reading::{own_taken, size_taken};
use crate::resolving::Resolution;
use fp_base::{NoMemory, Row, Text, Value};
use fp_consts::with_dots;
use fp_meaning::behind;
use fp_tables::{Constant, Field, Form, Kind};
use fp_tree::{Abstract, Alias, Array, Def, Enum, Name, Str, Struct};
use fp_type_sizes::{Own, WrittenType};
use std::alloc::Global;

/// What is written of a definition in a scope, where it is a type, from the resolutions of its parts, which begin at `start`.
pub fn written_in(
    alloc: Global,
    scope: &Row<Text>,
    definition: &Def,
    resolutions: &[Resolution],
    marks: &[Option<Value>],
    start: usize,
) -> Result<Option<WrittenType>, NoMemory>
    ensures { IfOk result (AreWrittenIn marks.now resolutions.now start scope.now definition.now) }
{
    match definition {
        Def::Constant(_) => Ok(None),
        Def::Abstract(kind) => Ok(Some(abstract_written(alloc, scope, kind)?)),
        Def::Alias(kind) => {
            let written = alias_written(alloc, scope, kind.get(), resolutions, marks, start)?;
            Ok(Some(written))
        }
        Def::Array(kind) => {
            let written = array_written(alloc, scope, kind.get(), resolutions, marks, start)?;
            Ok(Some(written))
        }
        Def::Struct(kind) => {
            let written = struct_written(alloc, scope, kind.get(), resolutions, marks, start)?;
            Ok(Some(written))
        }
        Def::Enum(kind) => {
            let written = enum_written(alloc, scope, kind.get(), resolutions, marks, start)?;
            Ok(Some(written))
        }
        Def::Port(_) => Ok(None),
    }
}

/// The qualified name of a definition in a scope.
fn qualified(alloc: Global, scope: &Row<Text>, name: &Name) -> Result<Text, NoMemory>
    ensures { IfOk result (λ text. text ≡ dotted (scope.now ++ name.now.text ∷ [])) }
{
    let names = behind(alloc, scope, name)?;
    with_dots(alloc, names.as_slice())
}

fn abstract_written(
    alloc: Global,
    scope: &Row<Text>,
    kind: &Abstract,
) -> Result<WrittenType, NoMemory>
    ensures { IfOk result (IsWrittenBy (λ source. Unit {0}) (type_here scope.now kind.now.name (def.Abstract kind.now) None kind.now.note)) }
{
    let name = qualified(alloc, scope, &kind.name)?;
    let note = kind.note.copy(alloc)?;
    Ok(WrittenType {
        name,
        form: Some(Form::Abstract),
        default: Own::Unwritten,
        note,
    })
}

fn alias_written(
    alloc: Global,
    scope: &Row<Text>,
    kind: &Alias,
    resolutions: &[Resolution],
    marks: &[Option<Value>],
    start: usize,
) -> Result<WrittenType, NoMemory>
    ensures { IfOk result (IsWrittenBy (λ source. AreResolved source marks.now resolutions.now (type_items 0 scope.now kind.now.target) start) (type_here scope.now kind.now.name (def.Alias kind.now) None kind.now.note)) }
{
    let mut next = start;
    let target = kind_taken(&kind.target.form, resolutions, marks, &mut next);
    let form = alias_of(target);
    let name = qualified(alloc, scope, &kind.name)?;
    let note = kind.note.copy(alloc)?;
    Ok(WrittenType {
        name,
        form,
        default: Own::Unwritten,
        note,
    })
}

fn alias_of(target: Option<Kind>) -> Option<Form>
    ensures { result ≡ option_map (λ k. form.Alias k) target }
{
    match target {
        Some(target) => Some(Form::Alias(target)),
        None => None,
    }
}

fn array_written(
    alloc: Global,
    scope: &Row<Text>,
    kind: &Array,
    resolutions: &[Resolution],
    marks: &[Option<Value>],
    start: usize,
) -> Result<WrittenType, NoMemory>
    ensures { IfOk result (IsWrittenBy (λ source. AreResolved source marks.now resolutions.now (array_items scope.now kind.now) start) (type_here scope.now kind.now.name (def.Array kind.now) kind.now.default kind.now.note)) }
{
    let mut next = start;
    let size = size_taken(256, resolutions, marks, &mut next);
    let element = kind_taken(&kind.element.form, resolutions, marks, &mut next);
    let form = array_of(alloc, size, element, &kind.format)?;
    let default = own_taken(alloc, &kind.default, resolutions, marks, &mut next)?;
    let name = qualified(alloc, scope, &kind.name)?;
    let note = kind.note.copy(alloc)?;
    Ok(WrittenType {
        name,
        form,
        default,
        note,
    })
}

fn array_of(
    alloc: Global,
    size: Option<u32>,
    element: Option<Kind>,
    format: &Option<Str>,
) -> Result<Option<Form>, NoMemory>
    ensures { IfOk result (λ whole. whole ≡ both_there (λ n k. form.Array n k (text_in format.now)) size element) }
{
    let Some(size) = size else {
        return Ok(None);
    };
    let Some(element) = element else {
        return Ok(None);
    };
    let format = text_copied(alloc, format)?;
    Ok(Some(Form::Array {
        size,
        element,
        format,
    }))
}

fn struct_written(
    alloc: Global,
    scope: &Row<Text>,
    kind: &Struct,
    resolutions: &[Resolution],
    marks: &[Option<Value>],
    start: usize,
) -> Result<WrittenType, NoMemory>
    ensures { IfOk result (IsWrittenBy (λ source. AreResolved source marks.now resolutions.now (struct_items scope.now kind.now) start) (type_here scope.now kind.now.name (def.Struct kind.now) kind.now.default kind.now.note)) }
{
    let mut next = start;
    let fields = fields_taken(alloc, kind.fields.as_slice(), resolutions, marks, &mut next)?;
    let form = struct_of(fields);
    let default = own_taken(alloc, &kind.default, resolutions, marks, &mut next)?;
    let name = qualified(alloc, scope, &kind.name)?;
    let note = kind.note.copy(alloc)?;
    Ok(WrittenType {
        name,
        form,
        default,
        note,
    })
}

fn struct_of(fields: Option<Row<Field>>) -> Option<Form>
    ensures { result ≡ option_map (λ xs. form.Struct xs) fields }
{
    match fields {
        Some(fields) => Some(Form::Struct(fields)),
        None => None,
    }
}

fn enum_written(
    alloc: Global,
    scope: &Row<Text>,
    kind: &Enum,
    resolutions: &[Resolution],
    marks: &[Option<Value>],
    start: usize,
) -> Result<WrittenType, NoMemory>
    ensures { IfOk result (IsWrittenBy (λ source. AreResolved source marks.now resolutions.now (enum_items scope.now kind.now) start) (type_here scope.now kind.now.name (def.Enum kind.now) kind.now.default kind.now.note)) }
{
    let name = qualified(alloc, scope, &kind.name)?;
    let mut next = start;
    let repr = repr_taken(&kind.repr, resolutions, marks, &mut next);
    let constants = constants_taken(alloc, kind, &name, resolutions, marks, &mut next)?;
    let form = enum_of(repr, constants);
    let default = own_taken(alloc, &kind.default, resolutions, marks, &mut next)?;
    let note = kind.note.copy(alloc)?;
    Ok(WrittenType {
        name,
        form,
        default,
        note,
    })
}

fn enum_of(repr: Option<Kind>, constants: Option<Row<Constant>>) -> Option<Form>
    ensures { result ≡ both_there (λ k xs. form.Enum k xs) repr constants }
{
    let repr = repr?;
    let constants = constants?;
    Some(Form::Enum { repr, constants })
}
