ghost use Rattle.std.specs.Prelude.{◌≡◌, ℕ, [], ◌∷◌, ◌++◌, None, Some, false, cond, is_none, flat_map};
ghost use Rattle.std.specs.List.{list_any};
ghost use Rattle.std.specs.Option.{option_copied};
ghost use Rattle.fp_base.specs.Least.{Either, InSome, IsLeast, broken_at};
ghost use Rattle.fp_base.specs.declared.rule.Rule.TheVariants.{ArraySize};
ghost use Rattle.fp_meaning.specs.Layout.{constant_items, expression_items, field_items, formal_items, part_items, type_form_items, type_items};
ghost use Rattle.fp_meaning.specs.Names.{Path, in_optional};
ghost use Rattle.fp_meaning.specs.Sites.{entry, is_implied};
ghost use Rattle.fp_meaning.specs.declared.item.Item.TheVariants as item;
ghost use Rattle.fp_tree.specs.declared.definition.Enum.{Enum as Whole};
ghost use Rattle.fp_tree.specs.declared.expression.Expr.{Expr as Node};
ghost use Rattle.fp_tree.specs.declared.part.EnumConst.{EnumConst as OneConst};
ghost use Rattle.fp_tree.specs.declared.part.Formal.{Formal as Parameter};
ghost use Rattle.fp_tree.specs.declared.source.Source.{Source};
ghost use Rattle.fp_type_forms.specs.Broken.{BrokenByForm, BrokenByMember, BrokenByName, BrokenByNumber, BrokenByParts, BrokenBySize, ByOptional, IsMixed, is_size, no_number, number_fault, size_fault, value_fault, written_fault};
ghost use Rattle.fp_type_forms.specs.Resolved.{AreResolved, Moves, Takes};

use crate::reading::{taken, value_of};
use crate::resolving::Resolution;
use fp_base::{Place, Refusal, Rule, Value, lesser, refusal_at, refusal_if};
use fp_consts::number_with;
use fp_layout::none_written;
use fp_tree::{Def, Enum, EnumConst, Expr, Field, Formal, TypeForm, TypeName};

/// The least that is broken in the parts of a definition, from their resolutions, which begin at `start`.
pub fn fault_in(
    definition: &Def,
    resolutions: &[Resolution],
    marks: &[Option<Value>],
    start: usize,
) -> Option<Refusal>
    ensures { (source : Source) (scope : Path) → AreResolved source marks.now resolutions.now (part_items scope definition.now) start → IsLeast (BrokenByParts source scope definition.now) result }
{
    let mut next = start;
    match definition {
        Def::Constant(_) => None,
        Def::Abstract(_) => None,
        Def::Alias(kind) => name_fault(&kind.get().target, resolutions, marks, &mut next),
        Def::Array(kind) => {
            let kind = kind.get();
            array_fault(&kind.size, &kind.element, resolutions, marks, &mut next)
        }
        Def::Struct(kind) => {
            let fields = kind.get().fields.as_slice();
            members_fault(fields, resolutions, marks, &mut next)
        }
        Def::Enum(kind) => enum_fault(kind.get(), resolutions, marks, &mut next),
        Def::Port(port) => {
            let port = port.get();
            let formals = port.formals.as_slice();
            port_fault(formals, &port.result, resolutions, marks, &mut next)
        }
    }
}

/// The least that is broken in the name of a type, at it or in the size of a string; what stands in it is passed.
pub fn name_fault(
    name: &TypeName,
    resolutions: &[Resolution],
    marks: &[Option<Value>],
    next: &mut usize,
) -> Option<Refusal>
    ensures { (source : Source) (scope : Path) (since : ℕ) → Takes source marks.now resolutions.now (type_items since scope name.now) next.old next.new (IsLeast (BrokenByName source scope name.now) result) }
{
    form_fault(name.at.first, &name.form, resolutions, marks, next)
}

fn form_fault(
    place: Place,
    form: &TypeForm,
    resolutions: &[Resolution],
    marks: &[Option<Value>],
    next: &mut usize,
) -> Option<Refusal>
    ensures { (source : Source) (scope : Path) (since : ℕ) → Takes source marks.now resolutions.now (type_form_items since scope form.now) next.old next.new (IsLeast (BrokenByForm source scope place form.now) result) }
{
    match form {
        TypeForm::U8 => None,
        TypeForm::U16 => None,
        TypeForm::U32 => None,
        TypeForm::U64 => None,
        TypeForm::I8 => None,
        TypeForm::I16 => None,
        TypeForm::I32 => None,
        TypeForm::I64 => None,
        TypeForm::F32 => Some(refusal_at(Rule::FloatUsed, place)),
        TypeForm::F64 => Some(refusal_at(Rule::FloatUsed, place)),
        TypeForm::Bool => None,
        TypeForm::Text { size } => {
            optional_size(Rule::StringSize, 65535, size, resolutions, marks, next)
        }
        TypeForm::Use(_) => past_use(resolutions, next),
    }
}

fn past_use(resolutions: &[Resolution], next: &mut usize) -> Option<Refusal>
    ensures nothing { result ≡ None }
    ensures moves { Moves resolutions.now next.old next.new }
{
    match taken(resolutions, next) {
        Some(_) => None,
        None => None,
    }
}

/// The same where a type may be left out.
pub fn optional_name(
    name: &Option<TypeName>,
    resolutions: &[Resolution],
    marks: &[Option<Value>],
    next: &mut usize,
) -> Option<Refusal>
    ensures { (source : Source) (scope : Path) → Takes source marks.now resolutions.now (in_optional (type_items 0 scope) name.now) next.old next.new (IsLeast (ByOptional (BrokenByName source scope) name.now) result) }
{
    match name {
        Some(name) => name_fault(name, resolutions, marks, next),
        None => None,
    }
}

fn optional_size(
    rule: Rule,
    most: u32,
    size: &Option<Expr>,
    resolutions: &[Resolution],
    marks: &[Option<Value>],
    next: &mut usize,
) -> Option<Refusal>
    ensures { (source : Source) (scope : Path) (since : ℕ) → Takes source marks.now resolutions.now (in_optional (expression_items since scope) size.now) next.old next.new (IsLeast (ByOptional (BrokenBySize source scope rule most) size.now) result) }
{
    match size {
        Some(size) => expression_size(rule, most, size.at.first, resolutions, marks, next),
        None => None,
    }
}

/// What is broken at the next expression, which begins at the place and gives a size; it is passed.
fn expression_size(
    rule: Rule,
    most: u32,
    place: Place,
    resolutions: &[Resolution],
    marks: &[Option<Value>],
    next: &mut usize,
) -> Option<Refusal>
    ensures { (source : Source) (scope : Path) (since : ℕ) (e : Node) → e.at.first ≡ place → Takes source marks.now resolutions.now (expression_items since scope e) next.old next.new (IsLeast (BrokenBySize source scope rule most e) result) }
{
    let found = taken(resolutions, next);
    fault_of_size(rule, most, place, value_of(found, marks))
}

fn fault_of_size(rule: Rule, most: u32, place: Place, value: Option<&Value>) -> Option<Refusal>
    ensures { result ≡ size_fault rule most place (option_copied value.entry) }
{
    match value {
        Some(value) => fault_of_number(rule, most, place, number_with(value)),
        None => None,
    }
}

fn fault_of_number(rule: Rule, most: u32, place: Place, number: Option<i128>) -> Option<Refusal>
    ensures { result ≡ number_fault rule most place number }
{
    match number {
        Some(number) => if_outside(rule, most, place, number),
        None => Some(refusal_at(Rule::BadConversion, place)),
    }
}

fn if_outside(rule: Rule, most: u32, place: Place, number: i128) -> Option<Refusal>
    ensures { result ≡ cond (is_size most number) None (Some (broken_at rule place)) }
{
    if is_within(most, number) {
        None
    } else {
        Some(refusal_at(rule, place))
    }
}

fn is_within(most: u32, number: i128) -> bool
    ensures { result ≡ is_size most number }
{
    1 <= number && number <= most as i128
}

fn array_fault(
    size: &Expr,
    element: &TypeName,
    resolutions: &[Resolution],
    marks: &[Option<Value>],
    next: &mut usize,
) -> Option<Refusal>
    ensures { (source : Source) (scope : Path) → Takes source marks.now resolutions.now (expression_items 0 scope size.now ++ type_items 0 scope element.now) next.old next.new (IsLeast (Either (BrokenBySize source scope ArraySize 256 size.now) (BrokenByName source scope element.now)) result) }
{
    let first = expression_size(
        Rule::ArraySize,
        256,
        size.at.first,
        resolutions,
        marks,
        next,
    );
    let second = name_fault(element, resolutions, marks, next);
    lesser(first, second)
}

fn members_fault(
    fields: &[Field],
    resolutions: &[Resolution],
    marks: &[Option<Value>],
    next: &mut usize,
) -> Option<Refusal>
    ensures { (source : Source) (scope : Path) → Takes source marks.now resolutions.now (flat_map (field_items scope) fields.now) next.old next.new (IsLeast (InSome (λ k. BrokenByMember source scope) fields.now) result) }
{
    let mut first = None;
    for field in fields {
        let one = member_fault(field, resolutions, marks, next);
        first = lesser(first, one);
    }
    first
}

fn member_fault(
    field: &Field,
    resolutions: &[Resolution],
    marks: &[Option<Value>],
    next: &mut usize,
) -> Option<Refusal>
    ensures { (source : Source) (scope : Path) → Takes source marks.now resolutions.now (field_items scope field.now) next.old next.new (IsLeast (BrokenByMember source scope field.now) result) }
{
    let first = optional_size(Rule::ArraySize, 256, &field.size, resolutions, marks, next);
    let second = name_fault(&field.of, resolutions, marks, next);
    lesser(first, second)
}

fn enum_fault(
    kind: &Enum,
    resolutions: &[Resolution],
    marks: &[Option<Value>],
    next: &mut usize,
) -> Option<Refusal>
    ensures { (source : Source) (scope : Path) → Takes source marks.now resolutions.now (in_optional (type_items 0 scope) kind.now.repr ++ constant_items scope kind.now 0 kind.now.constants) next.old next.new (IsLeast (Either (ByOptional (BrokenByName source scope) kind.now.repr) (Either (InSome (λ k. BrokenByNumber source scope) kind.now.constants) (IsMixed kind.now))) result) }
{
    let repr = optional_name(&kind.repr, resolutions, marks, next);
    let numbers = numbers_fault(kind, resolutions, marks, next);
    let mixed = mixed_fault(kind);
    let others = lesser(numbers, mixed);
    lesser(repr, others)
}

fn numbers_fault(
    kind: &Enum,
    resolutions: &[Resolution],
    marks: &[Option<Value>],
    next: &mut usize,
) -> Option<Refusal>
    ensures { (source : Source) (scope : Path) → Takes source marks.now resolutions.now (constant_items scope kind.now 0 kind.now.constants) next.old next.new (IsLeast (InSome (λ k. BrokenByNumber source scope) kind.now.constants) result) }
{
    let constants = kind.constants.as_slice();
    let mut first = None;
    for constant in constants {
        let one = constant_fault(constant, resolutions, marks, next);
        first = lesser(first, one);
    }
    first
}

fn constant_fault(
    constant: &EnumConst,
    resolutions: &[Resolution],
    marks: &[Option<Value>],
    next: &mut usize,
) -> Option<Refusal>
    ensures { (source : Source) (scope : Path) (d : Whole) (position : ℕ) → Takes source marks.now resolutions.now (item.Enumerated (entry scope d position constant.now) ∷ []) next.old next.new (IsLeast (BrokenByNumber source scope constant.now) result) }
{
    let found = taken(resolutions, next);
    fault_of_value(&constant.value, value_of(found, marks))
}

fn fault_of_value(written: &Option<Expr>, value: Option<&Value>) -> Option<Refusal>
    ensures { result ≡ written_fault written.now (option_copied value.entry) }
{
    match written {
        Some(written) => if_no_number(written.at.first, value),
        None => None,
    }
}

/// What is broken at an expression that begins at the place, in whose place a number is wanted.
pub fn if_no_number(place: Place, value: Option<&Value>) -> Option<Refusal>
    ensures { result ≡ value_fault place (option_copied value.entry) }
{
    match value {
        Some(value) => no_number_at(place, number_with(value)),
        None => None,
    }
}

fn no_number_at(place: Place, number: Option<i128>) -> Option<Refusal>
    ensures { result ≡ no_number place number }
{
    match number {
        Some(_) => None,
        None => Some(refusal_at(Rule::BadConversion, place)),
    }
}

fn mixed_fault(kind: &Enum) -> Option<Refusal>
    ensures { IsLeast (IsMixed kind.now) result }
{
    let mixed = has_both(kind);
    refusal_if(mixed, Rule::EnumValuesAllOrNone, kind.name.at.first)
}

fn has_both(kind: &Enum) -> bool
    ensures { result ≡ cond (is_implied kind.now) false (list_any (λ (c : OneConst). is_none c.value) kind.now.constants) }
{
    if none_written(kind) {
        false
    } else {
        lacks_some(kind.constants.as_slice())
    }
}

fn lacks_some(constants: &[EnumConst]) -> bool
    ensures { result ≡ list_any (λ (c : OneConst). is_none c.value) constants.now }
{
    constants.iter().any(|constant| constant.value.is_none())
}

fn port_fault(
    formals: &[Formal],
    answer: &Option<TypeName>,
    resolutions: &[Resolution],
    marks: &[Option<Value>],
    next: &mut usize,
) -> Option<Refusal>
    ensures { (source : Source) (scope : Path) → Takes source marks.now resolutions.now (flat_map (formal_items scope) formals.now ++ in_optional (type_items 0 scope) answer.now) next.old next.new (IsLeast (Either (InSome (λ k (p : Parameter). BrokenByName source scope p.of) formals.now) (ByOptional (BrokenByName source scope) answer.now)) result) }
{
    let first = formals_fault(formals, resolutions, marks, next);
    let second = optional_name(answer, resolutions, marks, next);
    lesser(first, second)
}

/// The least that is broken in the types of formal parameters, which are passed.
pub fn formals_fault(
    formals: &[Formal],
    resolutions: &[Resolution],
    marks: &[Option<Value>],
    next: &mut usize,
) -> Option<Refusal>
    ensures { (source : Source) (scope : Path) → Takes source marks.now resolutions.now (flat_map (formal_items scope) formals.now) next.old next.new (IsLeast (InSome (λ k (p : Parameter). BrokenByName source scope p.of) formals.now) result) }
{
    let mut first = None;
    for formal in formals {
        let one = name_fault(&formal.of, resolutions, marks, next);
        first = lesser(first, one);
    }
    first
}
