ghost use Rattle.fp_base.specs.Least.{ByOptional, IsLeast};
ghost use Rattle.fp_meaning.specs.Layout.{param_items, value_items};
ghost use Rattle.fp_meaning.specs.Names.{Path};
ghost use Rattle.fp_tree.specs.declared.source.Source.{Source};
ghost use Rattle.fp_tree.specs.declared.type_name.TypeForm.{TypeForm};
ghost use Rattle.fp_type_forms.specs.Resolved.{Takes};
ghost use Rattle.fp_type_forms.specs.Written.{IsOnly, KindIs};
ghost use Rattle.fp_type_sizes.specs.Found.{AreExtents};
ghost use Rattle.fp_part_values.specs.Broken.{BrokenByParam, IsUnfit};

use crate::misfitting::misfit_of;
use crate::pass_value;
use fp_base::{Refusal, Value};
use fp_tables::Kind;
use fp_tree::{Expr, ParamDef};
use fp_type_forms::{Resolution, kind_taken, taken, value_of};
use fp_type_sizes::{TypeExtent, WrittenType};

/// The rule that the default of a parameter breaks; what stands in the parameter is passed.
pub fn param_fault(
    param: &ParamDef,
    types: &[WrittenType],
    extents: &[Option<TypeExtent>],
    resolutions: &[Resolution],
    marks: &[Option<Value>],
    next: &mut usize,
) -> Option<Refusal>
    requires { AreExtents types.now extents.now }
    ensures { (source : Source) (scope : Path) → Takes source marks.now resolutions.now (param_items scope param.now) next.old next.new (IsLeast (BrokenByParam source types.now scope param.now) result) }
{
    let kind = kind_taken(&param.of.form, resolutions, marks, next);
    let fault = default_fault(
        &param.default,
        types,
        extents,
        kind,
        resolutions,
        marks,
        next,
    );
    pass_value(&param.id, resolutions, next);
    pass_value(&param.set, resolutions, next);
    pass_value(&param.save, resolutions, next);
    fault
}

fn default_fault(
    default: &Option<Expr>,
    types: &[WrittenType],
    extents: &[Option<TypeExtent>],
    kind: Option<Kind>,
    resolutions: &[Resolution],
    marks: &[Option<Value>],
    next: &mut usize,
) -> Option<Refusal>
    requires { AreExtents types.now extents.now }
    ensures { (source : Source) (scope : Path) (form : TypeForm) → IsOnly (KindIs source scope form) kind → Takes source marks.now resolutions.now (value_items scope default.now) next.old next.new (IsLeast (ByOptional (IsUnfit source types.now scope (KindIs source scope form)) default.now) result) }
{
    match default {
        Some(default) => {
            let found = taken(resolutions, next);
            let value = value_of(found, marks);
            misfit_of(types, extents, kind, value, default.at.first)
        }
        None => None,
    }
}
