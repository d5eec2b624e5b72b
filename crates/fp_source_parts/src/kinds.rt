ghost use Rattle.std.specs.Prelude.{IfOk, flat_map};
ghost use Rattle.fp_meaning.specs.Layout.{behavior_items, element_form_items, element_items, type_items};
ghost use Rattle.fp_meaning.specs.Names.{Path, in_optional};
ghost use Rattle.fp_tree.specs.declared.source.Source.{Source};
ghost use Rattle.fp_names.specs.Named.{elements_in};
ghost use Rattle.fp_type_forms.specs.Resolved.{AreResolved, Takes};
ghost use Rattle.fp_source_parts.specs.DeclaredElements.{DeclareAll, FormDeclares, TypeIs};

use fp_base::{NoMemory, Row, Value};
use fp_tables::Kind;
use fp_tree::{Behavior, BehaviorElement, ElementForm, TypeName};
use fp_type_forms::{Resolution, kind_taken};
use std::alloc::Global;

/// The kinds of what stands in a machine and is declared there; what it is resolved to begins at `start`.
pub fn kinds_in(
    alloc: Global,
    behavior: &Option<Behavior>,
    resolutions: &[Resolution],
    marks: &[Option<Value>],
    start: usize,
) -> Result<Row<Option<Kind>>, NoMemory>
    ensures { IfOk result (λ kinds. (source : Source) (scope : Path) → AreResolved source marks.now resolutions.now (in_optional (behavior_items scope) behavior.now) start → DeclareAll source scope (elements_in behavior.now) kinds) }
{
    let mut next = start;
    match behavior {
        None => Ok(Row::new(alloc)),
        Some(behavior) => {
            let elements = behavior.elements.as_slice();
            kinds_taken(alloc, elements, resolutions, marks, &mut next)
        }
    }
}

/// The kinds of what elements of a machine declare, from the resolutions of their type names, which are passed.
pub fn kinds_taken(
    alloc: Global,
    elements: &[BehaviorElement],
    resolutions: &[Resolution],
    marks: &[Option<Value>],
    next: &mut usize,
) -> Result<Row<Option<Kind>>, NoMemory>
    ensures { IfOk result (λ kinds. (source : Source) (scope : Path) → Takes source marks.now resolutions.now (flat_map (element_items scope) elements.now) next.old next.new (DeclareAll source scope elements.now kinds)) }
{
    let mut kinds = Row::with_capacity(alloc, elements.len())?;
    for element in elements {
        let one = form_taken(&element.form, resolutions, marks, next);
        kinds.push(one)?;
    }
    Ok(kinds)
}

fn form_taken(
    form: &ElementForm,
    resolutions: &[Resolution],
    marks: &[Option<Value>],
    next: &mut usize,
) -> Option<Kind>
    ensures { (source : Source) (scope : Path) → Takes source marks.now resolutions.now (element_form_items scope form.now) next.old next.new (FormDeclares source scope form.now result) }
{
    match form {
        ElementForm::Signal(named) => type_taken(&named.get().of, resolutions, marks, next),
        ElementForm::Action(named) => type_taken(&named.get().of, resolutions, marks, next),
        ElementForm::Guard(named) => type_taken(&named.get().of, resolutions, marks, next),
        ElementForm::State(_) => None,
        ElementForm::Choice(_) => None,
        ElementForm::Initial(_) => None,
        ElementForm::On(_) => None,
        ElementForm::Entry(_) => None,
        ElementForm::Exit(_) => None,
    }
}

fn type_taken(
    name: &Option<TypeName>,
    resolutions: &[Resolution],
    marks: &[Option<Value>],
    next: &mut usize,
) -> Option<Kind>
    ensures { (source : Source) (scope : Path) → Takes source marks.now resolutions.now (in_optional (type_items 0 scope) name.now) next.old next.new (TypeIs source scope name.now result) }
{
    match name {
        Some(name) => kind_taken(&name.form, resolutions, marks, next),
        None => None,
    }
}
