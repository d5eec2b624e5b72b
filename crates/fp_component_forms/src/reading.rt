ghost use Rattle.std.specs.Prelude.{◌≡◌, ℕ, false, List, Option, Some, slice_get, option_map, IfOk};
ghost use Rattle.std.specs.Option.{option_copied};
ghost use Rattle.fp_base.specs.declared.place.Span.{Span as Stretch};
ghost use Rattle.fp_base.specs.declared.value.Value.{Value as Data};
ghost use Rattle.fp_meaning.specs.declared.group.Group.{Group};
ghost use Rattle.fp_meaning.specs.Layout.{expression_items, type_items, use_items, value_items};
ghost use Rattle.fp_meaning.specs.Names.{Path, definitions, in_optional};
ghost use Rattle.fp_tree.specs.declared.name.Qual.{Qual as Naming};
ghost use Rattle.fp_tree.specs.declared.source.Source.{Source};
ghost use Rattle.fp_tables.specs.declared.kind.Kind.{Kind as Whole};
ghost use Rattle.fp_type_forms.specs.Resolved.{Takes};
ghost use Rattle.fp_type_forms.specs.Written.{is_kind};
ghost use Rattle.fp_component_forms.specs.Positions.{RanksAre};
ghost use Rattle.fp_component_forms.specs.Taken.{ResultWhere, TypeWhere};
ghost use Rattle.fp_component_forms.specs.Written.{BothOrNeither, DefaultIs, GivenIs, PositionIs, QueueIs, full_of};

use fp_base::{NoMemory, Place, Span, Value};
use fp_tables::{Full, Kind};
use fp_tree::{Expr, Full as FullWord, Qual, TypeName};
use fp_type_forms::{Resolution, kind_taken, meant_taken, number_taken, taken, value_of};
use fp_written_parts::{Given, QueueWords};
use std::alloc::Global;

/// The number of an expression, which is the next one and is passed.
pub fn given_taken(
    expression: &Expr,
    resolutions: &[Resolution],
    marks: &[Option<Value>],
    next: &mut usize,
) -> Given
    ensures { (source : Source) (scope : Path) → Takes source marks.now resolutions.now (expression_items 0 scope expression.now) next.old next.new (GivenIs source scope expression.now result) }
{
    let number = number_taken(resolutions, marks, next);
    Given {
        number,
        at: expression.at.first,
    }
}

/// The same where an expression may be left out.
pub fn optional_taken(
    expression: &Option<Expr>,
    resolutions: &[Resolution],
    marks: &[Option<Value>],
    next: &mut usize,
) -> Option<Given>
    ensures { (source : Source) (scope : Path) → Takes source marks.now resolutions.now (value_items scope expression.now) next.old next.new (BothOrNeither (GivenIs source scope) expression.now result) }
{
    match expression {
        Some(expression) => Some(given_taken(expression, resolutions, marks, next)),
        None => None,
    }
}

/// What is written of a queue; the expression of the priority is passed.
pub fn queue_taken(
    priority: &Option<Expr>,
    full: Option<FullWord>,
    word: Option<Span>,
    resolutions: &[Resolution],
    marks: &[Option<Value>],
    next: &mut usize,
) -> QueueWords
    ensures { (source : Source) (scope : Path) → Takes source marks.now resolutions.now (value_items scope priority.now) next.old next.new (QueueIs source scope priority.now full word result) }
{
    let priority = optional_taken(priority, resolutions, marks, next);
    let full = full_written(full);
    let word = first_place(word);
    QueueWords {
        priority,
        full,
        word,
    }
}

fn full_written(full: Option<FullWord>) -> Option<Full>
    ensures { result ≡ option_map full_of full }
{
    match full {
        Some(FullWord::Assert) => Some(Full::Assert),
        Some(FullWord::Block) => Some(Full::Block),
        Some(FullWord::Dropped) => Some(Full::Dropped),
        Some(FullWord::Hook) => Some(Full::Hook),
        None => None,
    }
}

fn first_place(word: Option<Span>) -> Option<Place>
    ensures { result ≡ option_map (λ (s : Stretch). s.first) word }
{
    match word {
        Some(span) => Some(span.first),
        None => None,
    }
}

/// The kind that a type name names, where it names one; what stands in it is passed.
pub fn type_taken(
    name: &TypeName,
    resolutions: &[Resolution],
    marks: &[Option<Value>],
    next: &mut usize,
) -> Kind
    ensures { (source : Source) (scope : Path) → Takes source marks.now resolutions.now (type_items 0 scope name.now) next.old next.new (TypeWhere source scope name.now result) }
{
    let found = kind_taken(&name.form, resolutions, marks, next);
    kind_there(found)
}

fn kind_there(found: Option<Kind>) -> Kind
    ensures { (kind : Whole) → found ≡ Some kind → result ≡ kind }
{
    match found {
        Some(kind) => kind,
        None => Kind::Bool,
    }
}

/// The same where a type name may be left out.
pub fn result_taken(
    name: &Option<TypeName>,
    resolutions: &[Resolution],
    marks: &[Option<Value>],
    next: &mut usize,
) -> Option<Kind>
    ensures { (source : Source) (scope : Path) → Takes source marks.now resolutions.now (in_optional (type_items 0 scope) name.now) next.old next.new (ResultWhere source scope name.now result) }
{
    match name {
        Some(name) => Some(type_taken(name, resolutions, marks, next)),
        None => None,
    }
}

/// The value of what stands behind `default`, where it has one; an expression there is passed.
pub fn default_taken(
    alloc: Global,
    default: &Option<Expr>,
    resolutions: &[Resolution],
    marks: &[Option<Value>],
    next: &mut usize,
) -> Result<Option<Value>, NoMemory>
    ensures { IfOk result (λ value. (source : Source) (scope : Path) → Takes source marks.now resolutions.now (value_items scope default.now) next.old next.new (DefaultIs source scope default.now value)) }
{
    match default {
        Some(_) => {
            let found = taken(resolutions, next);
            value_copied(alloc, value_of(found, marks))
        }
        None => Ok(None),
    }
}

fn value_copied(alloc: Global, value: Option<&Value>) -> Result<Option<Value>, NoMemory>
    ensures { IfOk result (λ copy. copy ≡ option_copied value.entry) }
{
    match value {
        Some(value) => Ok(Some(value.copy(alloc)?)),
        None => Ok(None),
    }
}

/// The position of what the next use means among the definitions of its group, from the number of those before each definition; the use is
/// passed.
pub fn position_taken(ranks: &[u32], resolutions: &[Resolution], next: &mut usize) -> u32
    ensures { (source : Source) (marks : List (Option Data)) (group : Group) (scope : Path) (name : Naming) → is_kind group ≡ false → RanksAre group (definitions source) ranks.now → Takes source marks resolutions.now (use_items group scope name) next.old next.new (PositionIs source scope group name result) }
{
    let meant = meant_taken(resolutions, next);
    rank_of(ranks, meant)
}

fn rank_of(ranks: &[u32], meant: Option<u32>) -> u32
    ensures { (number rank : ℕ) → meant ≡ Some number → slice_get ranks.now number ≡ Some rank → result ≡ rank }
{
    match meant {
        Some(number) => match ranks.get(number as usize) {
            Some(rank) => *rank,
            None => 0,
        },
        None => 0,
    }
}

/// The same where a name may be left out.
pub fn optional_position(
    ranks: &[u32],
    name: &Option<Qual>,
    resolutions: &[Resolution],
    next: &mut usize,
) -> Option<u32>
    ensures { (source : Source) (marks : List (Option Data)) (group : Group) (scope : Path) → is_kind group ≡ false → RanksAre group (definitions source) ranks.now → Takes source marks resolutions.now (in_optional (use_items group scope) name.now) next.old next.new (BothOrNeither (PositionIs source scope group) name.now result) }
{
    match name {
        Some(_) => Some(position_taken(ranks, resolutions, next)),
        None => None,
    }
}
