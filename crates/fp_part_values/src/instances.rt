ghost use Rattle.std.specs.Prelude.{[]};
ghost use Rattle.fp_base.specs.Least.{IsLeast};
ghost use Rattle.fp_meaning.specs.Layout.{model_own_items};
ghost use Rattle.fp_meaning.specs.Names.{Path};
ghost use Rattle.fp_meaning.specs.Sites.{instance as of_instance};
ghost use Rattle.fp_tree.specs.declared.source.Source.{Source};
ghost use Rattle.fp_type_forms.specs.Resolved.{Takes};
ghost use Rattle.fp_part_values.specs.FormBroken.{BrokenAmong};
ghost use Rattle.fp_part_values.specs.Numbers.{instance_numbers};

use crate::form_passing::pass_one;
use crate::reading::{number_fault, optional_number};
use fp_base::{Refusal, Value, lesser};
use fp_tree::Instance;
use fp_type_forms::Resolution;

/// The least that is broken in the numbers of an instance, which are passed.
pub fn instance_fault(
    instance: &Instance,
    resolutions: &[Resolution],
    marks: &[Option<Value>],
    next: &mut usize,
) -> Option<Refusal>
    ensures { (source : Source) (scope : Path) → Takes source marks.now resolutions.now (model_own_items scope (of_instance instance.now)) next.old next.new (IsLeast (BrokenAmong source scope [] (instance_numbers instance.now)) result) }
{
    pass_one(resolutions, next);
    let base = number_fault(&instance.base, resolutions, marks, next);
    let queue = optional_number(&instance.queue, resolutions, marks, next);
    let stack = optional_number(&instance.stack, resolutions, marks, next);
    let priority = optional_number(&instance.priority, resolutions, marks, next);
    let cpu = optional_number(&instance.cpu, resolutions, marks, next);
    let first = lesser(base, queue);
    let second = lesser(first, stack);
    let third = lesser(second, priority);
    lesser(third, cpu)
}
