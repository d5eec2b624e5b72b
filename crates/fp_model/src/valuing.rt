ghost use Rattle.std.specs.Prelude.{◌≡◌, IfErr, IfOk, OnOk};
ghost use Rattle.fp_base.specs.Least.{Either, IsLeast, IsUnbroken, IsStop};
ghost use Rattle.fp_meaning.specs.Broken.{NamesBroken};
ghost use Rattle.fp_meaning.specs.Layout as layout;
ghost use Rattle.fp_meaning.specs.Meaning.{AreMeanings};
ghost use Rattle.fp_meaning.specs.Names.{definitions, mentions};
ghost use Rattle.fp_meaning.specs.Origins.{expressions};
ghost use Rattle.fp_part_values.specs.FormBroken.{PartFormsBroken};
ghost use Rattle.fp_part_values.specs.Phases.{PhasesBroken};
ghost use Rattle.fp_source_parts.specs.Valued.{IsValued};
ghost use Rattle.fp_source_types.specs.Listed.{EnumsHaveConstants};
ghost use Rattle.fp_source_types.specs.Measured.{IsMeasured};
ghost use Rattle.fp_tree.specs.declared.source.Source.{Source as Files};
ghost use Rattle.fp_type_forms.specs.Resolved.{AreResolved};
ghost use Rattle.fp_type_forms.specs.Written.{AreWritten};
ghost use Rattle.fp_model.specs.Broken.{ConversionsBroken, ValuesBroken};
ghost use Rattle.fp_model.specs.Given.{StandFrom};

use fp_base::{Refusal, Row, Stop, Value, lesser};
use fp_consts::evaluate_all;
use fp_meaning::Item;
use fp_names::Names;
use fp_part_values::{part_form_faults, part_value_faults, phase_faults};
use fp_source_types::{
    Measured, given_among, measured_in, types_measured, unbroken_types_exist, unbroken_values_exist,
};
use fp_tables::TypeDef;
use fp_tree::{Source, Uses};
use fp_type_formats::formats_broken;
use std::alloc::Global;

/// The values of the expressions of a source, what is found of its types by their forms, and its types.
#[derive(Drop)]
pub struct Valued {
    pub values: Row<Option<Value>>,
    pub measured: Measured,
    pub types: Row<TypeDef>,
}

/// The values of the expressions and the types of a source that is laid out flat, or the least rule that it breaks of constants, types, formats,
/// what belongs to components and phases of instances.
pub fn values_of(
    alloc: Global,
    source: &Source,
    items: &[Item],
    names: &Names,
    uses: &Uses,
) -> Result<Valued, Stop>
    requires laid { items.now ≡ layout.items source.now }
    requires definitions { names.now ≡ definitions source.now }
    requires meanings { AreMeanings (definitions source.now) (mentions source.now) uses.now.meanings }
    requires names { IsUnbroken (NamesBroken source.now) }
    requires enumerations { EnumsHaveConstants source.now }
    ensures values { IfOk result (λ valued. StandFrom source.now valued.values (expressions source.now) 0) }
    ensures valued { IfOk result (λ found. IsValued source.now found.values found.measured.resolutions found.measured.written found.types) }
    ensures measured { IfOk result (λ valued. IsMeasured valued.measured) }
    ensures unbroken { OnOk result (IsUnbroken (ValuesBroken source.now)) }
    ensures stop { IfErr result (IsStop (ValuesBroken source.now)) }
{
    unbroken_types_exist();
    unbroken_values_exist();
    let marks = evaluate_all(alloc, source, uses)?;
    let values = marks.at.as_slice();
    let measured = measured_in(alloc, items, uses, values)?;
    let types = types_measured(alloc, items, uses, values, &measured)?;
    let formats = formats_broken(alloc, items, names)?;
    let of_parts = parts_broken(items, &measured, values);
    let behind = lesser(formats, of_parts);
    let of_types = lesser(types.first, behind);
    let first = lesser(marks.first, of_types);
    match first {
        None => {
            let given = given_among(alloc, types.at)?;
            Ok(Valued {
                values: marks.at,
                measured,
                types: given,
            })
        }
        Some(refusal) => Err(Stop::Broken(refusal)),
    }
}

/// The least rule of values that is broken in what belongs to components, or in phases of instances.
fn parts_broken(items: &[Item], measured: &Measured, values: &[Option<Value>]) -> Option<Refusal>
    requires { IsMeasured measured.now }
    ensures { (source : Files) → items.now ≡ layout.items source → AreResolved source values.now measured.now.resolutions items.now 0
        → AreWritten source measured.now.written → IsLeast (Either (PartFormsBroken source) (Either (ConversionsBroken source) (PhasesBroken source))) result }
{
    let resolutions = measured.resolutions.as_slice();
    let types = measured.written.as_slice();
    let sizes = measured.extents.as_slice();
    let forms = part_form_faults(items, resolutions, values);
    let conversions = part_value_faults(items, resolutions, values, types, sizes);
    let floats = phase_faults(items);
    let others = lesser(conversions, floats);
    lesser(forms, others)
}
