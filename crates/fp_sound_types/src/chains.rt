ghost use Rattle.std.specs.Prelude.{◌≡◌, true, map, replicate, IfOk};
ghost use Rattle.std.specs.List.{list_any};
ghost use Rattle.fp_tables.specs.Chains.{chains_are_short};
ghost use Rattle.fp_sound_types.specs.Marks.{is_marked, uses_marked};
ghost use Rattle.fp_tables.specs.declared.kind.Field.{Field};
ghost use Rattle.fp_tables.specs.declared.kind.TypeDef.{TypeDef};

use fp_base::NoMemory;
use fp_tables::{Field, Form, Kind, TypeDef};
use std::alloc::{AllocError, Global};

/// How many uses a chain of definitions may not have.
const MANY_USES: u32 = 256;

fn is_marked(marks: &[bool], kind: Kind) -> bool
    ensures { result ≡ is_marked marks.now kind }
{
    match kind {
        Kind::Named(at) => marks.get(at as usize).copied().unwrap_or(false),
        _ => false,
    }
}

fn any_is_marked(marks: &[bool], fields: &[Field]) -> bool
    ensures { result ≡ list_any (λ (field : Field). is_marked marks.now field.kind) fields.now }
{
    fields.iter().any(|field| is_marked(marks, field.kind))
}

/// Whether a form uses a type that is marked, or a constant where these are.
fn uses_marked(marks: &[bool], constants: bool, form: &Form) -> bool
    ensures { result ≡ uses_marked marks.now constants form.now }
{
    match form {
        Form::Abstract => false,
        Form::Alias(kind) => is_marked(marks, *kind),
        Form::Array { element, .. } => is_marked(marks, *element),
        Form::Struct(fields) => any_is_marked(marks, fields.as_slice()),
        Form::Enum {
            repr,
            constants: own,
        } => { own.len() > 0 && constants || is_marked(marks, *repr) }
    }
}

fn all_marked(alloc: Global, count: usize) -> Result<Vec<bool>, AllocError>
    ensures { IfOk result (λ marks. marks.items ≡ replicate count true) }
{
    vec![in alloc; true; count]
}

/// The types that use one that is marked, or a constant where these are.
fn users_of(
    alloc: Global,
    types: &[TypeDef],
    marks: &[bool],
    constants: bool,
) -> Result<Vec<bool>, NoMemory>
    ensures { IfOk result (λ users. users.items ≡ map (λ (definition : TypeDef). uses_marked marks.now constants definition.form) types.now) }
{
    let mut users = Vec::with_capacity(alloc, types.len())?;
    for definition in types {
        users.push(uses_marked(marks, constants, &definition.form))?;
    }
    Ok(users)
}

/// Whether no chain of definitions has more than 256.
pub fn chains_are_short(alloc: Global, types: &[TypeDef]) -> Result<bool, NoMemory>
    ensures { IfOk result (λ short. short ≡ chains_are_short types.now) }
{
    // After so many rounds a mark says that a chain of so many uses begins at the type. A chain of no uses begins at
    // each type and each constant, and a constant uses nothing.
    let mut marks = all_marked(alloc, types.len())?;
    for round in 0..MANY_USES {
        if !any_marked(marks.as_slice()) {
            return Ok(true);
        }
        marks = users_of(alloc, types, marks.as_slice(), round == 0)?;
    }
    Ok(!any_marked(marks.as_slice()))
}

fn any_marked(marks: &[bool]) -> bool
    ensures { result ≡ list_any (λ mark. mark) marks.now }
{
    marks.iter().any(|mark| *mark)
}
