ghost use Rattle.std.specs.Prelude.{◌≡◌, ◌++◌, ◌∷◌, [], Some, None, cond, pos, option_map, IfOk};
ghost use Rattle.fp_meaning.specs.Layout.{constant_items};
ghost use Rattle.fp_meaning.specs.Names.{Path};
ghost use Rattle.fp_meaning.specs.Sites.{entry, is_implied};
ghost use Rattle.fp_meaning.specs.Values.{dotted};
ghost use Rattle.fp_meaning.specs.declared.item.Item.TheVariants as item;
ghost use Rattle.fp_tree.specs.declared.definition.Enum.{Enum as Whole};
ghost use Rattle.fp_tree.specs.declared.source.Source.{Source};
ghost use Rattle.fp_type_forms.specs.Resolved.{Takes, constant_with, number_given};
ghost use Rattle.fp_type_forms.specs.Written.{ConstantsAre, EnumeratedIs, IsOnly};

use crate::fields::with_one;
use crate::reading::number_taken;
use crate::resolving::Resolution;
use fp_base::{NoMemory, Row, Text, Value};
use fp_layout::none_written;
use fp_tables::Constant;
use fp_tree::{Enum, EnumConst, Expr};
use std::alloc::Global;

/// The constants of an enumeration with its qualified name, where each has a number; their resolutions are passed.
pub fn constants_taken(
    alloc: Global,
    kind: &Enum,
    of: &Text,
    resolutions: &[Resolution],
    marks: &[Option<Value>],
    next: &mut usize,
) -> Result<Option<Row<Constant>>, NoMemory>
    ensures { IfOk result (λ row. (source : Source) (scope : Path) → of.now ≡ dotted (scope ++ kind.now.name.text ∷ []) → Takes source marks.now resolutions.now (constant_items scope kind.now 0 kind.now.constants) next.old next.new (IsOnly (ConstantsAre source scope kind.now kind.now.constants) row)) }
{
    let implied = none_written(kind);
    let constants = kind.constants.as_slice();
    let mut row = Some(Row::new(alloc));
    for (position, constant) in constants.iter().enumerate() {
        let one = constant_taken(
            alloc,
            position,
            implied,
            of,
            constant,
            resolutions,
            marks,
            next,
        )?;
        row = with_one(row, one)?;
    }
    Ok(row)
}

/// A constant at a position of an enumeration with the qualified name `of`, in which values may all be implied.
fn constant_taken(
    alloc: Global,
    position: usize,
    implied: bool,
    of: &Text,
    constant: &EnumConst,
    resolutions: &[Resolution],
    marks: &[Option<Value>],
    next: &mut usize,
) -> Result<Option<Constant>, NoMemory>
    ensures { IfOk result (λ one. (source : Source) (scope : Path) (d : Whole) → implied ≡ is_implied d → of.now ≡ dotted (scope ++ d.name.text ∷ []) → Takes source marks.now resolutions.now (item.Enumerated (entry scope d position constant.now) ∷ []) next.old next.new (IsOnly (EnumeratedIs source scope d position constant.now) one)) }
{
    let written = number_taken(resolutions, marks, next);
    let number = number_for(position, implied, &constant.value, written);
    constant_of(alloc, of, constant, number)
}

/// The number of a constant at a position, where the number that is written there was read.
pub fn number_for(
    position: usize,
    implied: bool,
    value: &Option<Expr>,
    written: Option<i128>,
) -> Option<i128>
    ensures { result ≡ number_given position implied value.now written }
{
    match value {
        Some(_) => written,
        None => position_if(implied, position),
    }
}

fn position_if(implied: bool, position: usize) -> Option<i128>
    ensures { result ≡ cond implied (Some (pos position)) None }
{
    if implied {
        Some(position as i128)
    } else {
        None
    }
}

fn constant_of(
    alloc: Global,
    of: &Text,
    constant: &EnumConst,
    number: Option<i128>,
) -> Result<Option<Constant>, NoMemory>
    ensures { IfOk result (λ one. one ≡ option_map (constant_with of.now constant.now) number) }
{
    let Some(number) = number else {
        return Ok(None);
    };
    let of = of.copy(alloc)?;
    let copy = constant.name.text.copy(alloc)?;
    let value = Value::Enumerated {
        of,
        constant: copy,
        number,
    };
    let name = constant.name.text.copy(alloc)?;
    let note = constant.note.copy(alloc)?;
    Ok(Some(Constant { name, value, note }))
}
