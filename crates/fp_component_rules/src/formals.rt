ghost use Rattle.std.specs.Prelude.{IfOk};
ghost use Rattle.fp_base.specs.Least.{IsLeast};
ghost use Rattle.fp_component_rules.specs.PortBroken.{RepeatedFormals};

use fp_base::{NoMemory, Refusal, Rule, lesser, refusal_if};
use fp_tables::see;
use fp_written_parts::WrittenFormal;
use std::alloc::Global;
use std::collections::BTreeSet;

/// The least parameter with the name of an earlier one.
pub fn repeated_formal(
    alloc: Global,
    formals: &[WrittenFormal],
) -> Result<Option<Refusal>, NoMemory>
    ensures { IfOk result (IsLeast (RepeatedFormals formals.now)) }
{
    let mut seen = BTreeSet::new(alloc);
    let mut first = None;
    for formal in formals {
        let again = see(&mut seen, formal.name.as_str())?;
        let fault = refusal_if(again, Rule::ParameterRepeated, formal.at);
        first = lesser(first, fault);
    }
    Ok(first)
}
