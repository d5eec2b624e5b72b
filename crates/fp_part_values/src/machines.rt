ghost use Rattle.std.specs.Prelude.{[], flat_map};
ghost use Rattle.fp_base.specs.Least.{IsLeast};
ghost use Rattle.fp_meaning.specs.Layout.{behavior_items, element_form_items, element_items, typed_items};
ghost use Rattle.fp_meaning.specs.Names.{Path, in_optional};
ghost use Rattle.fp_tree.specs.declared.source.Source.{Source};
ghost use Rattle.fp_type_forms.specs.Resolved.{Takes};
ghost use Rattle.fp_part_values.specs.FormBroken.{BrokenAmong};
ghost use Rattle.fp_part_values.specs.Names.{behavior_names, element_names, form_names, written};

use fp_base::{Refusal, Value, lesser};
use fp_tree::{Behavior, BehaviorElement, ElementForm, TypedName};
use fp_type_forms::{Resolution, optional_name};

/// The least that is broken in what a machine does, if that is written; it is passed.
pub fn behavior_fault(
    behavior: &Option<Behavior>,
    resolutions: &[Resolution],
    marks: &[Option<Value>],
    next: &mut usize,
) -> Option<Refusal>
    ensures { (source : Source) (scope : Path) → Takes source marks.now resolutions.now (in_optional (behavior_items scope) behavior.now) next.old next.new (IsLeast (BrokenAmong source scope (in_optional behavior_names behavior.now) []) result) }
{
    match behavior {
        Some(behavior) => elements_fault(behavior.elements.as_slice(), resolutions, marks, next),
        None => None,
    }
}

fn elements_fault(
    elements: &[BehaviorElement],
    resolutions: &[Resolution],
    marks: &[Option<Value>],
    next: &mut usize,
) -> Option<Refusal>
    ensures { (source : Source) (scope : Path) → Takes source marks.now resolutions.now (flat_map (element_items scope) elements.now) next.old next.new (IsLeast (BrokenAmong source scope (flat_map element_names elements.now) []) result) }
{
    let mut first = None;
    for element in elements {
        let one = element_fault(&element.form, resolutions, marks, next);
        first = lesser(first, one);
    }
    first
}

fn element_fault(
    form: &ElementForm,
    resolutions: &[Resolution],
    marks: &[Option<Value>],
    next: &mut usize,
) -> Option<Refusal>
    ensures { (source : Source) (scope : Path) → Takes source marks.now resolutions.now (element_form_items scope form.now) next.old next.new (IsLeast (BrokenAmong source scope (form_names form.now) []) result) }
{
    match form {
        ElementForm::Signal(signal) => typed_fault(signal.get(), resolutions, marks, next),
        ElementForm::Action(action) => typed_fault(action.get(), resolutions, marks, next),
        ElementForm::Guard(guard) => typed_fault(guard.get(), resolutions, marks, next),
        ElementForm::State(_) => None,
        ElementForm::Choice(_) => None,
        ElementForm::Initial(_) => None,
        ElementForm::On(_) => None,
        ElementForm::Entry(_) => None,
        ElementForm::Exit(_) => None,
    }
}

fn typed_fault(
    named: &TypedName,
    resolutions: &[Resolution],
    marks: &[Option<Value>],
    next: &mut usize,
) -> Option<Refusal>
    ensures { (source : Source) (scope : Path) → Takes source marks.now resolutions.now (typed_items scope named.now) next.old next.new (IsLeast (BrokenAmong source scope (written named.now.of) []) result) }
{
    optional_name(&named.of, resolutions, marks, next)
}
