ghost use Rattle.std.specs.Prelude.{IfOk};
ghost use Rattle.fp_base.specs.Least.{InSome, IsLeast};
ghost use Rattle.fp_tree.specs.declared.expression.Assignment.{Assignment as Given};
ghost use Rattle.fp_type_forms.specs.Broken.{RepeatsIn};

use crate::names::repeated_name;
use fp_base::{NoMemory, Refusal, lesser};
use fp_tree::{Assignment, Expr, Form};
use std::alloc::Global;

/// The least name that a struct expression has before, in an expression or in one within it.
#[cycle(naming)]
pub fn repeated_in(alloc: Global, expression: &Expr) -> Result<Option<Refusal>, NoMemory>
    ensures { IfOk result (IsLeast (RepeatsIn expression.now)) }
{
    match &expression.form {
        Form::Number(_) => Ok(None),
        Form::Float => Ok(None),
        Form::Text(_) => Ok(None),
        Form::Truth(_) => Ok(None),
        Form::Use(_) => Ok(None),
        Form::Minus(operand) => repeated_in(alloc, operand.get()),
        Form::Parentheses(inner) => repeated_in(alloc, inner.get()),
        Form::Binary { left, right, .. } => {
            let left = left.get();
            let right = right.get();
            let one = repeated_in(alloc, left)?;
            let other = repeated_in(alloc, right)?;
            Ok(lesser(one, other))
        }
        Form::Array(items) => in_list(alloc, items.as_slice()),
        Form::Struct(members) => {
            let members = members.as_slice();
            let here = repeated_name(alloc, members)?;
            let within = in_struct(alloc, members)?;
            Ok(lesser(here, within))
        }
    }
}

#[cycle(naming)]
fn in_list(alloc: Global, items: &[Expr]) -> Result<Option<Refusal>, NoMemory>
    ensures { IfOk result (IsLeast (InSome (λ k. RepeatsIn) items.now)) }
{
    let mut first = None;
    for item in items {
        let one = repeated_in(alloc, item)?;
        first = lesser(first, one);
    }
    Ok(first)
}

#[cycle(naming)]
fn in_struct(alloc: Global, members: &[Assignment]) -> Result<Option<Refusal>, NoMemory>
    ensures { IfOk result (IsLeast (InSome (λ k (m : Given). RepeatsIn m.value) members.now)) }
{
    let mut first = None;
    for member in members {
        let one = in_member(alloc, member)?;
        first = lesser(first, one);
    }
    Ok(first)
}

#[cycle(naming)]
fn in_member(alloc: Global, member: &Assignment) -> Result<Option<Refusal>, NoMemory>
    ensures { IfOk result (IsLeast (RepeatsIn member.now.value)) }
{
    repeated_in(alloc, &member.value)
}
