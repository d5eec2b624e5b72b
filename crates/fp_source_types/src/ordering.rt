ghost use Rattle.std.specs.Prelude.{◌≡◌, ◌++◌, flat_map, map, IfOk, OnOk};
ghost use Rattle.fp_tables.specs.declared.kind.Field.{Field as Member};
ghost use Rattle.fp_type_sizes.specs.Found.{IsTypeOrder};
ghost use Rattle.fp_source_types.specs.Used.{number_in, used_by, used_if, used_in};

use fp_base::{NoMemory, Row};
use fp_graph::chains_of;
use fp_tables::{Field, Form, Kind};
use fp_type_sizes::WrittenType;
use std::alloc::Global;

/// All types, each that has a size behind those that it uses.
pub fn order_of(alloc: Global, types: &[WrittenType]) -> Result<Vec<usize>, NoMemory>
    ensures { IfOk result (λ order. IsTypeOrder types.now order.items) }
{
    let rows = used_types(alloc, types)?;
    let used = rows.as_slice();
    let chained = chains_of(alloc, used)?;
    Ok(chained.order)
}

/// For each type those that its form uses.
fn used_types(alloc: Global, types: &[WrittenType]) -> Result<Vec<Row<u32>>, NoMemory>
    ensures { IfOk result (λ rows. rows.items ≡ map used_by types.now) }
{
    let mut rows = Vec::new(alloc);
    for written in types {
        let row = used_if(alloc, &written.form)?;
        rows.push(row)?;
    }
    Ok(rows)
}

fn used_if(alloc: Global, form: &Option<Form>) -> Result<Row<u32>, NoMemory>
    ensures { IfOk result (λ row. row ≡ used_if form.now) }
{
    match form {
        Some(form) => used_in(alloc, form),
        None => Ok(Row::new(alloc)),
    }
}

fn used_in(alloc: Global, form: &Form) -> Result<Row<u32>, NoMemory>
    ensures { IfOk result (λ row. row ≡ used_in form.now) }
{
    match form {
        Form::Abstract => Ok(Row::new(alloc)),
        Form::Alias(target) => number_in(alloc, *target),
        Form::Array { element, .. } => number_in(alloc, *element),
        Form::Struct(fields) => numbers_in(alloc, fields.as_slice()),
        Form::Enum { repr, .. } => number_in(alloc, *repr),
    }
}

fn number_in(alloc: Global, kind: Kind) -> Result<Row<u32>, NoMemory>
    ensures { IfOk result (λ row. row ≡ number_in kind) }
{
    let mut row = Row::new(alloc);
    add_number(kind, &mut row)?;
    Ok(row)
}

fn numbers_in(alloc: Global, fields: &[Field]) -> Result<Row<u32>, NoMemory>
    ensures { IfOk result (λ row. row ≡ flat_map (λ (f : Member). number_in f.kind) fields.now) }
{
    let mut row = Row::new(alloc);
    for field in fields {
        add_number(field.kind, &mut row)?;
    }
    Ok(row)
}

fn add_number(kind: Kind, row: &mut Row<u32>) -> Result<(), NoMemory>
    ensures { OnOk result (row.new ≡ row.old ++ number_in kind) }
{
    match kind {
        Kind::Named(number) => row.push(number),
        _ => Ok(()),
    }
}
