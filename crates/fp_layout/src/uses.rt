ghost use Rattle.std.specs.Prelude.{◌≡◌, ◌++◌, flat_map, OnOk};
ghost use Rattle.fp_meaning.specs.Layout.{expression_items, formals_items, type_form_items, type_items, use_items, value_items};
ghost use Rattle.fp_meaning.specs.Sites.{in_optional};

use fp_base::{NoMemory, Row};
use fp_meaning::{Group, Item, Located, Named, Scope};
use fp_tree::{Expr, Formal, Qual, TypeForm, TypeName};

/// Adds an expression, so many definitions behind the one that has it.
pub fn of_expression<'a>(
    since: usize,
    expression: &'a Expr,
    scope: &Scope,
    found: &mut Row<Item<'a>>,
) -> Result<(), NoMemory>
    ensures { OnOk result (found.new ≡ found.old ++ expression_items since scope.now expression.now) }
{
    let expression = Located::of(scope, expression)?;
    found.push(Item::Written { since, expression })
}

pub fn of_optional<'a>(
    since: usize,
    expression: &'a Option<Expr>,
    scope: &Scope,
    found: &mut Row<Item<'a>>,
) -> Result<(), NoMemory>
    ensures { OnOk result (found.new ≡ found.old ++ in_optional (expression_items since scope.now) expression.now) }
{
    match expression {
        Some(expression) => of_expression(since, expression, scope, found),
        None => Ok(()),
    }
}

/// Adds an expression that may be left out, directly behind what has it.
pub fn of_value<'a>(
    expression: &'a Option<Expr>,
    scope: &Scope,
    found: &mut Row<Item<'a>>,
) -> Result<(), NoMemory>
    ensures { OnOk result (found.new ≡ found.old ++ value_items scope.now expression.now) }
{
    of_optional(0, expression, scope, found)
}

pub fn of_type<'a>(
    since: usize,
    name: &'a TypeName,
    scope: &Scope,
    found: &mut Row<Item<'a>>,
) -> Result<(), NoMemory>
    ensures { OnOk result (found.new ≡ found.old ++ type_items since scope.now name.now) }
{
    of_type_form(since, &name.form, scope, found)
}

fn of_type_form<'a>(
    since: usize,
    form: &'a TypeForm,
    scope: &Scope,
    found: &mut Row<Item<'a>>,
) -> Result<(), NoMemory>
    ensures { OnOk result (found.new ≡ found.old ++ type_form_items since scope.now form.now) }
{
    match form {
        TypeForm::Text { size } => of_optional(since, size, scope, found),
        TypeForm::Use(name) => {
            let name = Named::of(Group::Kind, scope, name)?;
            found.push(Item::Used { since, name })
        }
        TypeForm::U8 => Ok(()),
        TypeForm::U16 => Ok(()),
        TypeForm::U32 => Ok(()),
        TypeForm::U64 => Ok(()),
        TypeForm::I8 => Ok(()),
        TypeForm::I16 => Ok(()),
        TypeForm::I32 => Ok(()),
        TypeForm::I64 => Ok(()),
        TypeForm::F32 => Ok(()),
        TypeForm::F64 => Ok(()),
        TypeForm::Bool => Ok(()),
    }
}

pub fn of_optional_type<'a>(
    name: &'a Option<TypeName>,
    scope: &Scope,
    found: &mut Row<Item<'a>>,
) -> Result<(), NoMemory>
    ensures { OnOk result (found.new ≡ found.old ++ in_optional (type_items 0 scope.now) name.now) }
{
    match name {
        Some(name) => of_type(0, name, scope, found),
        None => Ok(()),
    }
}

pub fn of_formals<'a>(
    formals: &'a [Formal],
    scope: &Scope,
    found: &mut Row<Item<'a>>,
) -> Result<(), NoMemory>
    ensures { OnOk result (found.new ≡ found.old ++ formals_items scope.now formals.now) }
{
    for formal in formals {
        of_type(0, &formal.of, scope, found)?;
    }
    Ok(())
}

/// Adds the use of a name of a group.
pub fn of_use<'a>(
    group: Group,
    name: &'a Qual,
    scope: &Scope,
    found: &mut Row<Item<'a>>,
) -> Result<(), NoMemory>
    ensures { OnOk result (found.new ≡ found.old ++ use_items group scope.now name.now) }
{
    let name = Named::of(group, scope, name)?;
    found.push(Item::Used { since: 0, name })
}
