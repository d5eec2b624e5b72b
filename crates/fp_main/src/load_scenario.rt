ghost use Rattle.std.specs.Prelude.{◌≡◌, ◌++◌, IfOk, OnOk};
ghost use Rattle.fp_main.specs.Load.{call_text, each_below, scenario_text};

use fp_base::{NoMemory, Row};
use fp_logtext::{push_number, push_text};
use std::alloc::Global;

/// How many calls there are behind the first.
const MORE_CALLS: u32 = 99;

const HEAD: &str =
    "{\"steps\":20000,\"callers\":[{\"name\":\"k\",\"do\":[{\"call\":\"Gen.w0.feed\",\"with\":[0]}";

const HANDLERS: &str =
    "]}],\"handlers\":[{\"of\":\"Gen.W\",\"on\":\"port feed\",\"do\":[{\"call\":\"next\",\"with\":[{\"$\":\"a\"}]}]},{\"of\":\"Gen.w";

/// The scenario with so many instances in a chain.
pub fn scenario_text(alloc: Global, count: u32) -> Result<Row<u8>, NoMemory>
    ensures { IfOk result (λ text. text ≡ scenario_text count) }
{
    let mut text = Row::new(alloc);
    push_text(&mut text, HEAD)?;
    push_calls(&mut text, MORE_CALLS)?;
    push_text(&mut text, HANDLERS)?;
    push_number(&mut text, count.saturating_sub(1))?;
    push_text(&mut text, "\",\"on\":\"port feed\",\"do\":[]}]}\n")?;
    Ok(text)
}

fn push_calls(text: &mut Row<u8>, count: u32) -> Result<(), NoMemory>
    ensures { OnOk result (text.new ≡ text.old ++ each_below call_text count) }
{
    let mut number = 0;
    'numbers: while number < count {
        push_call(text, number)?;
        number += 1;
    }
    Ok(())
}

fn push_call(text: &mut Row<u8>, number: u32) -> Result<(), NoMemory>
    ensures { OnOk result (text.new ≡ text.old ++ call_text number) }
{
    push_text(text, ",{\"call\":\"Gen.w0.feed\",\"with\":[")?;
    push_number(text, u64::from(number) + 1)?;
    push_text(text, "]}")
}
