ghost use Rattle.fp_base.specs.Least.{InSome, IsLeast};
ghost use Rattle.fp_meaning.specs.Read.{read};
ghost use Rattle.fp_meaning.specs.Values.{values_in};
ghost use Rattle.fp_part_values.specs.Phases.{BrokenByDefinition, BrokenByItem, BrokenByItems, BrokenByPhase, FloatBroken};

use fp_base::{Refusal, Rule, lesser, refusal_at};
use fp_meaning::{Item, ModelDef};
use fp_tree::{Assignment, Expr, Form, Phase};

/// The least of the refusals of floats in the expressions of phases, each at the float's own place. None exactly where there is no such float.
pub fn phase_faults(items: &[Item]) -> Option<Refusal>
    ensures { IsLeast (BrokenByItems items.now) result }
{
    let mut first = None;
    for item in items {
        let of_item = item_fault(item);
        first = lesser(first, of_item);
    }
    first
}

fn item_fault(item: &Item) -> Option<Refusal>
    ensures { IsLeast (BrokenByItem item.now) result }
{
    match item {
        Item::Defined(_) => None,
        Item::Enumerated(_) => None,
        Item::Declared(declared) => definition_fault(declared.definition()),
        Item::Used { .. } => None,
        Item::Written { .. } => None,
    }
}

fn definition_fault(definition: ModelDef) -> Option<Refusal>
    ensures { IsLeast (BrokenByDefinition (read definition.entry)) result }
{
    match definition {
        ModelDef::Machine(_) => None,
        ModelDef::Component(_) => None,
        ModelDef::Interface(_) => None,
        ModelDef::Instance(instance) => phases_fault(instance.phases.as_slice()),
        ModelDef::Topology(_) => None,
    }
}

fn phases_fault(phases: &[Phase]) -> Option<Refusal>
    ensures { IsLeast (InSome (λ k. BrokenByPhase) phases.now) result }
{
    let mut first = None;
    for phase in phases {
        let of_phase = expression_fault(&phase.phase);
        first = lesser(first, of_phase);
    }
    first
}

/// The least of the refusals of floats in an expression.
#[cycle(floats)]
fn expression_fault(expression: &Expr) -> Option<Refusal>
    ensures { IsLeast (FloatBroken expression.now) result }
{
    match &expression.form {
        Form::Number(_) => None,
        Form::Float => Some(refusal_at(Rule::FloatUsed, expression.at.first)),
        Form::Text(_) => None,
        Form::Truth(_) => None,
        Form::Use(_) => None,
        Form::Minus(operand) => expression_fault(operand.get()),
        Form::Parentheses(inner) => expression_fault(inner.get()),
        Form::Binary { left, right, .. } => {
            let one = expression_fault(left.get());
            let other = expression_fault(right.get());
            lesser(one, other)
        }
        Form::Array(items) => items_fault(items.as_slice()),
        Form::Struct(members) => members_fault(members.as_slice()),
    }
}

#[cycle(floats)]
fn items_fault(items: &[Expr]) -> Option<Refusal>
    ensures { IsLeast (InSome (λ k. FloatBroken) items.now) result }
{
    let mut first = None;
    for item in items {
        let of_element = expression_fault(item);
        first = lesser(first, of_element);
    }
    first
}

#[cycle(floats)]
fn members_fault(members: &[Assignment]) -> Option<Refusal>
    ensures { IsLeast (InSome (λ k. FloatBroken) (values_in members.now)) result }
{
    let mut first = None;
    for member in members {
        let of_member = member_fault(member);
        first = lesser(first, of_member);
    }
    first
}

#[cycle(floats)]
fn member_fault(member: &Assignment) -> Option<Refusal>
    ensures { IsLeast (FloatBroken member.now.value) result }
{
    expression_fault(&member.value)
}
