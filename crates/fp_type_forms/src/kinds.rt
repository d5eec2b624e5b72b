ghost use Rattle.std.specs.Prelude.{◌≡◌, ℕ, option_map, slice_get};
ghost use Rattle.fp_tables.specs.declared.kind.Kind.TheVariants as kind;
ghost use Rattle.fp_meaning.specs.Layout.{expression_items, type_form_items, type_items};
ghost use Rattle.fp_meaning.specs.Names.{Path, in_optional};
ghost use Rattle.fp_tree.specs.declared.source.Source.{Source};
ghost use Rattle.fp_tree.specs.declared.type_name.TypeForm.TheVariants as type;
ghost use Rattle.fp_type_forms.specs.Resolved.{Moves, Takes, kind_resolved};
ghost use Rattle.fp_type_forms.specs.Written.{IsOnly, KindIs, ReprIs};

use crate::reading::{size_taken, taken};
use crate::resolving::Resolution;
use fp_base::Value;
use fp_tables::Kind;
use fp_tree::{Expr, TypeForm, TypeName};

/// The kind that a type name names, from the resolutions of what stands in it, which are passed.
pub fn kind_taken(
    form: &TypeForm,
    resolutions: &[Resolution],
    marks: &[Option<Value>],
    next: &mut usize,
) -> Option<Kind>
    ensures { (source : Source) (scope : Path) (since : ℕ) → Takes source marks.now resolutions.now (type_form_items since scope form.now) next.old next.new (IsOnly (KindIs source scope form.now) result) }
{
    match form {
        TypeForm::U8 => Some(Kind::U8),
        TypeForm::U16 => Some(Kind::U16),
        TypeForm::U32 => Some(Kind::U32),
        TypeForm::U64 => Some(Kind::U64),
        TypeForm::I8 => Some(Kind::I8),
        TypeForm::I16 => Some(Kind::I16),
        TypeForm::I32 => Some(Kind::I32),
        TypeForm::I64 => Some(Kind::I64),
        TypeForm::F32 => None,
        TypeForm::F64 => None,
        TypeForm::Bool => Some(Kind::Bool),
        TypeForm::Text { size } => text_taken(size, resolutions, marks, next),
        TypeForm::Use(_) => use_taken(resolutions, next),
    }
}

fn text_taken(
    size: &Option<Expr>,
    resolutions: &[Resolution],
    marks: &[Option<Value>],
    next: &mut usize,
) -> Option<Kind>
    ensures { (source : Source) (scope : Path) (since : ℕ) → Takes source marks.now resolutions.now (in_optional (expression_items since scope) size.now) next.old next.new (IsOnly (KindIs source scope (type.Text size.now)) result) }
{
    match size {
        None => Some(Kind::Str { size: 80 }),
        Some(_) => text_of(size_taken(65535, resolutions, marks, next)),
    }
}

fn text_of(size: Option<u32>) -> Option<Kind>
    ensures { result ≡ option_map (λ n. kind.Str n) size }
{
    match size {
        Some(size) => Some(Kind::Str { size }),
        None => None,
    }
}

fn use_taken(resolutions: &[Resolution], next: &mut usize) -> Option<Kind>
    ensures kind { result ≡ kind_resolved (slice_get resolutions.now next.old) }
    ensures moves { Moves resolutions.now next.old next.new }
{
    kind_of(taken(resolutions, next))
}

fn kind_of(found: Option<Resolution>) -> Option<Kind>
    ensures { result ≡ kind_resolved found }
{
    match found {
        Some(Resolution::Type(number)) => Some(Kind::Named(number)),
        Some(Resolution::Meant(_)) => None,
        Some(Resolution::Expression(_)) => None,
        Some(Resolution::Nothing) => None,
        None => None,
    }
}

/// The representation of an enumeration, with the resolutions of what stands in it passed.
pub fn repr_taken(
    repr: &Option<TypeName>,
    resolutions: &[Resolution],
    marks: &[Option<Value>],
    next: &mut usize,
) -> Option<Kind>
    ensures { (source : Source) (scope : Path) → Takes source marks.now resolutions.now (in_optional (type_items 0 scope) repr.now) next.old next.new (IsOnly (ReprIs source scope repr.now) result) }
{
    match repr {
        Some(name) => kind_taken(&name.form, resolutions, marks, next),
        None => Some(Kind::I32),
    }
}
