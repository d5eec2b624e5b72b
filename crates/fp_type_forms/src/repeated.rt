ghost use Rattle.std.specs.Prelude.{IfOk};
ghost use Rattle.std.specs.Option.{option_copied};
ghost use Rattle.fp_base.specs.Least.{InSome, IsLeast};
ghost use Rattle.fp_type_forms.specs.Broken.{ByOptional, RepeatsIn};
ghost use Rattle.fp_type_forms.specs.Tested.{NamesByDefinition, NamesByItem};

use crate::expressions::repeated_in;
use crate::names::repeated_field;
use fp_base::{NoMemory, Refusal, lesser};
use fp_meaning::Item;
use fp_tree::{Def, Expr};
use std::alloc::Global;

/// The least name that a struct type or a struct expression has before.
pub fn repeated_names(alloc: Global, items: &[Item]) -> Result<Option<Refusal>, NoMemory>
    ensures { IfOk result (IsLeast (InSome (λ k. NamesByItem) items.now)) }
{
    let mut first = None;
    for item in items {
        let one = in_item(alloc, item)?;
        first = lesser(first, one);
    }
    Ok(first)
}

fn in_item(alloc: Global, item: &Item) -> Result<Option<Refusal>, NoMemory>
    ensures { IfOk result (IsLeast (NamesByItem item.now)) }
{
    match item {
        Item::Defined(sited) => in_definition(alloc, sited.definition()),
        Item::Enumerated(listed) => in_optional(alloc, listed.value()),
        Item::Declared(_) => Ok(None),
        Item::Used { .. } => Ok(None),
        Item::Written { expression, .. } => repeated_in(alloc, expression.expression()),
    }
}

fn in_definition(alloc: Global, definition: &Def) -> Result<Option<Refusal>, NoMemory>
    ensures { IfOk result (IsLeast (NamesByDefinition definition.now)) }
{
    match definition {
        Def::Constant(constant) => repeated_in(alloc, &constant.value),
        Def::Abstract(_) => Ok(None),
        Def::Alias(_) => Ok(None),
        Def::Array(_) => Ok(None),
        Def::Struct(kind) => repeated_field(alloc, kind.get().fields.as_slice()),
        Def::Enum(_) => Ok(None),
        Def::Port(_) => Ok(None),
    }
}

fn in_optional(alloc: Global, expression: Option<&Expr>) -> Result<Option<Refusal>, NoMemory>
    ensures { IfOk result (IsLeast (ByOptional RepeatsIn (option_copied expression.entry))) }
{
    match expression {
        Some(expression) => repeated_in(alloc, expression),
        None => Ok(None),
    }
}
