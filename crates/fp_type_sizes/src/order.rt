ghost use Rattle.std.specs.Prelude.{◌≡◌, true, IfOk};
ghost use Rattle.std.specs.List.{list_all};
ghost use Rattle.fp_tables.specs.Lists.{if_some};
ghost use Rattle.fp_tables.specs.declared.kind.Field.{Field as Member};
ghost use Rattle.fp_type_sizes.specs.Earlier.{is_not_later, form_uses_earlier, uses_earlier, AreNumbers};
ghost use Rattle.fp_type_sizes.specs.Found.{IsTypeOrder};

use crate::written::WrittenType;
use fp_base::NoMemory;
use fp_tables::{Field, Form, Kind};
use std::alloc::Global;

fn is_not_later(kind: Kind, at: usize) -> bool
    ensures { result ≡ is_not_later at kind }
{
    match kind {
        Kind::Named(number) => number as usize <= at,
        _ => true,
    }
}

fn fields_use_earlier(fields: &[Field], at: usize) -> bool
    ensures { result ≡ list_all (λ (field : Member). is_not_later at field.kind) fields.now }
{
    fields.iter().all(|field| is_not_later(field.kind, at))
}

fn form_uses_earlier(form: &Form, at: usize) -> bool
    ensures { result ≡ form_uses_earlier at form.now }
{
    match form {
        Form::Abstract => true,
        Form::Alias(kind) => is_not_later(*kind, at),
        Form::Array { element, .. } => is_not_later(*element, at),
        Form::Struct(fields) => fields_use_earlier(fields.as_slice(), at),
        Form::Enum { repr, .. } => is_not_later(*repr, at),
    }
}

fn written_uses_earlier(written: &WrittenType, at: usize) -> bool
    ensures { result ≡ if_some (form_uses_earlier at) written.now.form }
{
    match &written.form {
        Some(form) => form_uses_earlier(form, at),
        None => true,
    }
}

/// Whether no type uses one that stands behind it.
pub fn uses_earlier(types: &[WrittenType]) -> bool
    ensures { result ≡ uses_earlier types.now }
{
    for (at, written) in types.iter().enumerate() {
        let earlier = written_uses_earlier(written, at);
        if !earlier {
            return false;
        }
    }
    true
}

/// The types as they stand, where that is an order.
pub fn own_order(alloc: Global, types: &[WrittenType]) -> Result<Vec<usize>, NoMemory>
    requires { uses_earlier types.now ≡ true }
    ensures { IfOk result (λ order. IsTypeOrder types.now order.items) }
{
    numbers_below(alloc, types.len())
}

fn numbers_below(alloc: Global, count: usize) -> Result<Vec<usize>, NoMemory>
    ensures { IfOk result (λ numbers. AreNumbers count numbers.items) }
{
    let mut numbers = Vec::with_capacity(alloc, count)?;
    for at in 0..count {
        numbers.push(at)?;
    }
    Ok(numbers)
}
