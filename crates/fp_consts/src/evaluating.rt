ghost use Rattle.std.specs.Prelude.{◌≡◌, map, IfErr, IfOk, OnOk};
ghost use Rattle.fp_meaning.specs.ConstantFaults.{ConstantsBroken};
ghost use Rattle.fp_base.specs.Least.{IsLeast, IsUnbroken, IsStop};
ghost use Rattle.fp_meaning.specs.Meaning.{AreMeanings};
ghost use Rattle.fp_meaning.specs.Names.{definitions, mentions};
ghost use Rattle.fp_meaning.specs.Origins.{expressions};
ghost use Rattle.fp_consts.specs.Answered.{StandFor, or_opaque};
ghost use Rattle.fp_consts.specs.Marked.{AreValues};

use crate::laying::lay;
use crate::marking::marked;
use crate::tabling::table_of;
use fp_base::{NoMemory, Row, Stop, Value, lesser};
use fp_layout::{definitions_in, lay_out};
use fp_meaning::Marks;
use fp_tree::{Source, Uses, Values};
use fp_uses::{Users, chain_faults, sorted_uses};
use std::alloc::Global;

/// The values of the expressions of a source, and the least rule that its constants break. Each definition is evaluated once, and each
/// expression that gives a definition its value is examined once more.
pub fn evaluate_all(alloc: Global, source: &Source, uses: &Uses) -> Result<Marks, NoMemory>
    requires { AreMeanings (definitions source.now) (mentions source.now) uses.now.meanings }
    ensures at { IfOk result (λ marks. AreValues source.now (expressions source.now) marks.at) }
    ensures first { IfOk result (λ marks. IsLeast (ConstantsBroken source.now) marks.first) }
{
    let meanings = uses.meanings.as_slice();
    let layout = lay_out(alloc, source)?;
    let items = layout.items();
    let chained = sorted_uses(alloc, items, uses)?;
    let limit = meanings.len();
    let laid = lay(alloc, items, limit)?;
    let table = table_of(alloc, items, &laid, &chained, meanings)?;
    let values = table.as_slice();
    let marking = marked(alloc, items, values, meanings)?;
    let row = definitions_in(alloc, items)?;
    let definitions = row.as_slice();
    let chains = chain_faults(definitions, &chained, Users::Constants);
    Ok(Marks {
        at: marking.at,
        first: lesser(marking.first, chains),
    })
}

/// The value of each expression of a source, in source order, or the least rule that its constants break. `Opaque` stands for "no value,
/// though no rule of constants is broken", as at a constant of an enumeration that is written in part; no expression has it as its
/// value, and a later phase reads it as a value that is missing.
pub fn evaluate(alloc: Global, source: &Source, uses: &Uses) -> Result<Values, Stop>
    requires { AreMeanings (definitions source.now) (mentions source.now) uses.now.meanings }
    ensures values { IfOk result (λ values. StandFor source.now (expressions source.now) values.at) }
    ensures unbroken { OnOk result (IsUnbroken (ConstantsBroken source.now)) }
    ensures stop { IfErr result (IsStop (ConstantsBroken source.now)) }
{
    let marks = evaluate_all(alloc, source, uses)?;
    match marks.first {
        None => {
            let at = filled(alloc, marks.at)?;
            Ok(Values { at })
        }
        Some(refusal) => Err(Stop::Broken(refusal)),
    }
}

fn filled(alloc: Global, marks: Row<Option<Value>>) -> Result<Row<Value>, NoMemory>
    ensures { IfOk result (λ row. row ≡ map or_opaque marks) }
{
    let mut row = Row::with_capacity(alloc, marks.len())?;
    for mark in marks.into_vec() {
        row.push(value_of(mark))?;
    }
    Ok(row)
}

fn value_of(mark: Option<Value>) -> Value
    ensures { result ≡ or_opaque mark }
{
    match mark {
        Some(value) => value,
        None => Value::Opaque,
    }
}
