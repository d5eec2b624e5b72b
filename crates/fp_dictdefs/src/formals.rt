ghost use Rattle.std.specs.Prelude.{IfOk};
ghost use Rattle.fp_base.specs.Least.{IsLeast};
ghost use Rattle.fp_dictdefs.specs.Broken.{BrokenFormals, RefFormals};

use crate::names::repeated_formal;
use fp_base::{NoMemory, Refusal, Rule, lesser, refusal_if};
use fp_written_parts::WrittenFormal;
use std::alloc::Global;

/// The least parameter with the name of an earlier one, or by reference.
pub fn formal_fault(alloc: Global, formals: &[WrittenFormal]) -> Result<Option<Refusal>, NoMemory>
    ensures { IfOk result (IsLeast (BrokenFormals formals.now)) }
{
    let repeated = repeated_formal(alloc, formals)?;
    let by_ref = ref_formal(formals);
    Ok(lesser(repeated, by_ref))
}

/// The least parameter by reference.
pub fn ref_formal(formals: &[WrittenFormal]) -> Option<Refusal>
    ensures { IsLeast (RefFormals formals.now) result }
{
    let mut first = None;
    for formal in formals {
        let fault = refusal_if(formal.by_ref, Rule::RefParameter, formal.at);
        first = lesser(first, fault);
    }
    first
}
