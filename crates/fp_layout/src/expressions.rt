ghost use Rattle.std.specs.Prelude.{◌≡◌, ◌++◌, ◌∷◌, [], flat_map, map, IfOk, OnOk};
ghost use Rattle.std.specs.Option.{option_copied};
ghost use Rattle.fp_tree.specs.declared.name.Name.{Name as Single};
ghost use Rattle.fp_meaning.specs.declared.group.Group.TheVariants.{Value};
ghost use Rattle.fp_meaning.specs.Names.{in_assignment, in_expression, in_form, in_optional, mention_of, mentioned};

use fp_base::{NoMemory, Row, Text};
use fp_meaning::{Group, Mention, Named, copy_scope};
use fp_tree::{Assignment, Expr, Form, Name, Qual};
use std::alloc::Global;

/// The texts of names.
fn texts_of(alloc: Global, names: &[Name]) -> Result<Row<Text>, NoMemory>
    ensures { IfOk result (λ row. row ≡ map (λ (n : Single). n.text) names.now) }
{
    let mut row = Row::new(alloc);
    for name in names {
        row.push(name.text.copy(alloc)?)?;
    }
    Ok(row)
}

/// Adds a use that stands in no expression.
pub fn mention_named(alloc: Global, name: &Named, found: &mut Row<Mention>) -> Result<(), NoMemory>
    ensures { OnOk result (found.new ≡ found.old ++ mention_of name.now ∷ []) }
{
    let scope = copy_scope(alloc, name.scope())?;
    let texts = texts_of(alloc, name.names())?;
    found.push(Mention {
        group: name.group(),
        scope,
        name: texts,
        place: name.place(),
    })
}

/// Adds the use of a value in a scope.
fn mention(
    alloc: Global,
    name: &Qual,
    scope: &Row<Text>,
    found: &mut Row<Mention>,
) -> Result<(), NoMemory>
    ensures { OnOk result (found.new ≡ found.old ++ mentioned Value scope.now name.now ∷ []) }
{
    let scope = copy_scope(alloc, scope)?;
    let texts = texts_of(alloc, name.names.as_slice())?;
    found.push(Mention {
        group: Group::Value,
        scope,
        name: texts,
        place: name.at.first,
    })
}

/// Adds the uses in an expression.
#[cycle(expressions)]
pub fn of_expression(
    alloc: Global,
    expression: &Expr,
    scope: &Row<Text>,
    found: &mut Row<Mention>,
) -> Result<(), NoMemory>
    ensures { OnOk result (found.new ≡ found.old ++ in_expression scope.now expression.now) }
{
    of_form(alloc, &expression.form, scope, found)
}

#[cycle(expressions)]
fn of_form(
    alloc: Global,
    form: &Form,
    scope: &Row<Text>,
    found: &mut Row<Mention>,
) -> Result<(), NoMemory>
    ensures { OnOk result (found.new ≡ found.old ++ in_form scope.now form.now) }
{
    match form {
        Form::Number(_) => Ok(()),
        Form::Float => Ok(()),
        Form::Text(_) => Ok(()),
        Form::Truth(_) => Ok(()),
        Form::Use(name) => mention(alloc, name, scope, found),
        Form::Minus(operand) => of_expression(alloc, operand.get(), scope, found),
        Form::Parentheses(inner) => of_expression(alloc, inner.get(), scope, found),
        Form::Binary { left, right, .. } => {
            of_expression(alloc, left.get(), scope, found)?;
            of_expression(alloc, right.get(), scope, found)
        }
        Form::Array(items) => of_items(alloc, items.as_slice(), scope, found),
        Form::Struct(members) => of_assignments(alloc, members.as_slice(), scope, found),
    }
}

#[cycle(expressions)]
fn of_items(
    alloc: Global,
    items: &[Expr],
    scope: &Row<Text>,
    found: &mut Row<Mention>,
) -> Result<(), NoMemory>
    ensures { OnOk result (found.new ≡ found.old ++ flat_map (in_expression scope.now) items.now) }
{
    for item in items {
        of_expression(alloc, item, scope, found)?;
    }
    Ok(())
}

#[cycle(expressions)]
fn of_assignments(
    alloc: Global,
    members: &[Assignment],
    scope: &Row<Text>,
    found: &mut Row<Mention>,
) -> Result<(), NoMemory>
    ensures { OnOk result (found.new ≡ found.old ++ flat_map (in_assignment scope.now) members.now) }
{
    for member in members {
        of_assignment(alloc, member, scope, found)?;
    }
    Ok(())
}

#[cycle(expressions)]
fn of_assignment(
    alloc: Global,
    member: &Assignment,
    scope: &Row<Text>,
    found: &mut Row<Mention>,
) -> Result<(), NoMemory>
    ensures { OnOk result (found.new ≡ found.old ++ in_assignment scope.now member.now) }
{
    of_expression(alloc, &member.value, scope, found)
}

/// Adds the uses in an expression, where there is one.
pub fn of_optional(
    alloc: Global,
    expression: Option<&Expr>,
    scope: &Row<Text>,
    found: &mut Row<Mention>,
) -> Result<(), NoMemory>
    ensures { OnOk result (found.new ≡ found.old ++ in_optional (in_expression scope.now) (option_copied expression.entry)) }
{
    match expression {
        Some(expression) => of_expression(alloc, expression, scope, found),
        None => Ok(()),
    }
}
