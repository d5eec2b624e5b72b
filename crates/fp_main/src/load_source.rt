ghost use Rattle.std.specs.Prelude.{◌≡◌, ◌++◌, IfOk, OnOk};
ghost use Rattle.fp_main.specs.Load.{connection_line, each_below, instance_line, member_line, source_text};

use fp_base::{NoMemory, Row};
use fp_logtext::{push_number, push_text};
use std::alloc::Global;

const COMPONENT: &str =
    "module Gen {\n  port P(a: U32)\n  active component W { async input port feed: P block; output port next: P }\n";

/// The source with so many instances in a chain.
pub fn source_text(alloc: Global, count: u32) -> Result<Row<u8>, NoMemory>
    ensures { IfOk result (λ text. text ≡ source_text count) }
{
    let mut text = Row::new(alloc);
    push_text(&mut text, COMPONENT)?;
    push_instances(&mut text, count)?;
    push_text(&mut text, "  topology T {\n")?;
    push_members(&mut text, count)?;
    push_text(&mut text, "    connections Chain {\n")?;
    push_connections(&mut text, count.saturating_sub(1))?;
    push_text(&mut text, "    }\n  }\n}\n")?;
    Ok(text)
}

fn push_instances(text: &mut Row<u8>, count: u32) -> Result<(), NoMemory>
    ensures { OnOk result (text.new ≡ text.old ++ each_below instance_line count) }
{
    let mut number = 0;
    'numbers: while number < count {
        push_instance(text, number)?;
        number += 1;
    }
    Ok(())
}

fn push_instance(text: &mut Row<u8>, number: u32) -> Result<(), NoMemory>
    ensures { OnOk result (text.new ≡ text.old ++ instance_line number) }
{
    push_text(text, "  instance w")?;
    push_number(text, number)?;
    push_text(text, ": W base id ")?;
    push_number(text, number)?;
    push_text(text, " queue size 4\n")
}

fn push_members(text: &mut Row<u8>, count: u32) -> Result<(), NoMemory>
    ensures { OnOk result (text.new ≡ text.old ++ each_below member_line count) }
{
    let mut number = 0;
    'numbers: while number < count {
        push_member(text, number)?;
        number += 1;
    }
    Ok(())
}

fn push_member(text: &mut Row<u8>, number: u32) -> Result<(), NoMemory>
    ensures { OnOk result (text.new ≡ text.old ++ member_line number) }
{
    push_text(text, "    instance w")?;
    push_number(text, number)?;
    push_text(text, "\n")
}

fn push_connections(text: &mut Row<u8>, count: u32) -> Result<(), NoMemory>
    ensures { OnOk result (text.new ≡ text.old ++ each_below connection_line count) }
{
    let mut number = 0;
    'numbers: while number < count {
        push_connection(text, number)?;
        number += 1;
    }
    Ok(())
}

fn push_connection(text: &mut Row<u8>, number: u32) -> Result<(), NoMemory>
    ensures { OnOk result (text.new ≡ text.old ++ connection_line number) }
{
    push_text(text, "      w")?;
    push_number(text, number)?;
    push_text(text, ".next -> w")?;
    push_number(text, u64::from(number) + 1)?;
    push_text(text, ".feed\n")
}
