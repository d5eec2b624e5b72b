ghost use Rattle.std.specs.Prelude.{◌≡◌, ◌++◌, Some, flat_map, map, option_to_list, IfErr, IfOk, OnOk};
ghost use Rattle.fp_base.specs.Least.{IsUnbroken, IsStop};
ghost use Rattle.fp_consts.specs.Answered.{StandFor};
ghost use Rattle.fp_meaning.specs.Broken.{BrokenByDefinitions};
ghost use Rattle.fp_meaning.specs.ConstantFaults.{ConstantsBroken};
ghost use Rattle.fp_meaning.specs.Meaning.{AreMeanings};
ghost use Rattle.fp_meaning.specs.Names.{definitions, mentions};
ghost use Rattle.fp_meaning.specs.Origins.{expressions};
ghost use Rattle.fp_tables.specs.declared.kind.TypeDef.{TypeDef as Given};
ghost use Rattle.fp_types.specs.WellWritten.{AreSoundTypes};
ghost use Rattle.fp_source_types.specs.Broken.{TypesBroken};
ghost use Rattle.fp_source_types.specs.Listed.{EnumsHaveConstants};
ghost use Rattle.fp_source_types.specs.Resolved.{is_opaque, mark_of};
ghost use Rattle.fp_source_types.specs.Typed.{AreTypesOf};

use crate::laws::{unbroken_types_are_sound, unbroken_types_exist};
use crate::typing::types_from;
use fp_base::{NoMemory, Row, Stop, Value};
use fp_consts::never_opaque;
use fp_tables::TypeDef;
use fp_tree::{Source, Uses, Values};
use std::alloc::Global;

/// The types of a source, in source order, or the least rule that they break, from what its uses mean and the values of its expressions, as
/// `evaluate` gives them.
pub fn resolve_types(
    alloc: Global,
    source: &Source,
    uses: &Uses,
    values: &Values,
) -> Result<Row<TypeDef>, Stop>
    requires names { IsUnbroken (BrokenByDefinitions source.now) }
    requires meanings { AreMeanings (definitions source.now) (mentions source.now) uses.now.meanings }
    requires values { StandFor source.now (expressions source.now) values.now.at }
    requires constants { IsUnbroken (ConstantsBroken source.now) }
    requires enumerations { EnumsHaveConstants source.now }
    ensures types { IfOk result (λ types. AreTypesOf source.now (map (λ (d : Given). Some d) types)) }
    ensures unbroken { OnOk result (IsUnbroken (TypesBroken source.now)) }
    ensures sound { IfOk result AreSoundTypes }
    ensures stop { IfErr result (IsStop (TypesBroken source.now)) }
{
    never_opaque();
    unbroken_types_exist();
    unbroken_types_are_sound();
    let stated = values.at.as_slice();
    let marked = marks_of(alloc, stated)?;
    let marks = marked.as_slice();
    let types = types_from(alloc, source, uses, marks)?;
    match types.first {
        None => {
            let given = given_among(alloc, types.at)?;
            Ok(given)
        }
        Some(refusal) => Err(Stop::Broken(refusal)),
    }
}

/// The values, where `Opaque` stands for one that is missing.
fn marks_of(alloc: Global, values: &[Value]) -> Result<Row<Option<Value>>, NoMemory>
    ensures { IfOk result (λ marks. marks ≡ map mark_of values.now) }
{
    let mut marks = Row::new(alloc);
    for value in values {
        let mark = mark_of(alloc, value)?;
        marks.push(mark)?;
    }
    Ok(marks)
}

fn mark_of(alloc: Global, value: &Value) -> Result<Option<Value>, NoMemory>
    ensures { IfOk result (λ mark. mark ≡ mark_of value.now) }
{
    if is_opaque(value) {
        Ok(None)
    } else {
        let copy = value.copy(alloc)?;
        Ok(Some(copy))
    }
}

fn is_opaque(value: &Value) -> bool
    ensures { result ≡ is_opaque value.now }
{
    match value {
        Value::Int(_) => false,
        Value::Bool(_) => false,
        Value::Text(_) => false,
        Value::Enumerated { .. } => false,
        Value::Array(_) => false,
        Value::Struct(_) => false,
        Value::Opaque => true,
    }
}

/// The types that are given, in their order.
pub fn given_among(alloc: Global, marks: Row<Option<TypeDef>>) -> Result<Row<TypeDef>, NoMemory>
    ensures { IfOk result (λ given. given ≡ flat_map option_to_list marks) }
{
    let mut given = Row::with_capacity(alloc, marks.len())?;
    for mark in marks.into_vec() {
        add(mark, &mut given)?;
    }
    Ok(given)
}

fn add(mark: Option<TypeDef>, given: &mut Row<TypeDef>) -> Result<(), NoMemory>
    ensures { OnOk result (given.new ≡ given.old ++ option_to_list mark) }
{
    match mark {
        Some(definition) => given.push(definition),
        None => Ok(()),
    }
}
