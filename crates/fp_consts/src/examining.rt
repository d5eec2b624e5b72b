ghost use Rattle.std.specs.Prelude.{IfOk};
ghost use Rattle.fp_tree.specs.declared.expression.Form.TheVariants.{Array, Struct};
ghost use Rattle.fp_consts.specs.Examined.{Examines, ExaminesForm};

use crate::found::{Examination, binary, float, minus, simple, text, used};
use crate::gathered::{begun, extended, listed, sized, structured};
use crate::measured::Measured;
use fp_base::{NoMemory, Place, Value};
use fp_tree::{Assignment, Expr, Form};
use std::alloc::Global;

/// What is found of an expression, from the values of the definitions in `table`, what the uses mean, by their numbers, and the number of
/// its first use. Each expression within is walked once.
#[cycle(examine)]
pub fn examine(
    alloc: Global,
    expression: &Expr,
    table: &[Option<Measured>],
    meanings: &[u32],
    next: usize,
) -> Result<Examination, NoMemory>
    ensures { IfOk result (Examines table.now meanings.now expression.now next) }
{
    let place = expression.at.first;
    match &expression.form {
        Form::Number(number) => Ok(simple(Value::Int(*number), next)),
        Form::Float => Ok(float(place, next)),
        Form::Text(words) => text(alloc, words, next),
        Form::Truth(truth) => Ok(simple(Value::Bool(*truth), next)),
        Form::Use(_) => used(alloc, table, meanings, next),
        Form::Minus(operand) => {
            let operand = operand.get();
            let within = examine(alloc, operand, table, meanings, next)?;
            Ok(minus(place, operand.at.first, within))
        }
        Form::Parentheses(inner) => examine(alloc, inner.get(), table, meanings, next),
        Form::Binary {
            operator,
            left,
            right,
        } => {
            let left = left.get();
            let right = right.get();
            let one = examine(alloc, left, table, meanings, next)?;
            let other = examine(alloc, right, table, meanings, one.next)?;
            Ok(binary(place, *operator, left.at.first, right.at.first, one, other))
        }
        Form::Array(items) => of_list(alloc, place, items.as_slice(), table, meanings, next),
        Form::Struct(members) => of_struct(alloc, place, members.as_slice(), table, meanings, next),
    }
}

/// What is found of a list that begins at `place`.
#[cycle(examine)]
fn of_list(
    alloc: Global,
    place: Place,
    items: &[Expr],
    table: &[Option<Measured>],
    meanings: &[u32],
    next: usize,
) -> Result<Examination, NoMemory>
    ensures { IfOk result (ExaminesForm table.now meanings.now (Array items.now) place next) }
{
    let mut gathered = begun(alloc, next);
    for item in items {
        let found = examine(alloc, item, table, meanings, gathered.next)?;
        gathered = extended(alloc, gathered, found)?;
    }
    Ok(listed(sized(place, gathered)))
}

/// What is found of a struct that begins at `place`.
#[cycle(examine)]
fn of_struct(
    alloc: Global,
    place: Place,
    members: &[Assignment],
    table: &[Option<Measured>],
    meanings: &[u32],
    next: usize,
) -> Result<Examination, NoMemory>
    ensures { IfOk result (ExaminesForm table.now meanings.now (Struct members.now) place next) }
{
    let mut gathered = begun(alloc, next);
    for member in members {
        let found = of_member(alloc, member, table, meanings, gathered.next)?;
        gathered = extended(alloc, gathered, found)?;
    }
    structured(alloc, members, sized(place, gathered))
}

#[cycle(examine)]
fn of_member(
    alloc: Global,
    member: &Assignment,
    table: &[Option<Measured>],
    meanings: &[u32],
    next: usize,
) -> Result<Examination, NoMemory>
    ensures { IfOk result (Examines table.now meanings.now member.now.value next) }
{
    examine(alloc, &member.value, table, meanings, next)
}
