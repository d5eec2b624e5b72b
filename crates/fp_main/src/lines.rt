ghost use Rattle.std.specs.Prelude.{◌≡◌, IfOk};
ghost use Rattle.fp_main.specs.Lines.{usage_line, refusal_line, read_fault_line, no_file_line, no_topology_line, scenario_line};

use fp_base::{NoMemory, PathStop, Refusal, Row};
use fp_logtext::{push_number, push_text};
use std::alloc::Global;

pub fn usage_line(alloc: Global, word: u64) -> Result<Row<u8>, NoMemory>
    ensures { IfOk result (λ line. line ≡ usage_line word) }
{
    let mut line = Row::new(alloc);
    push_text(&mut line, "fpp: usage at word ")?;
    push_number(&mut line, word)?;
    push_text(&mut line, "\n")?;
    Ok(line)
}

pub fn read_fault_line(alloc: Global, name: &str) -> Result<Row<u8>, NoMemory>
    ensures { IfOk result (λ line. line ≡ read_fault_line name.now) }
{
    let mut line = Row::new(alloc);
    push_text(&mut line, "fpp: read fault ")?;
    push_text(&mut line, name)?;
    push_text(&mut line, "\n")?;
    Ok(line)
}

pub fn no_file_line(alloc: Global, name: &str) -> Result<Row<u8>, NoMemory>
    ensures { IfOk result (λ line. line ≡ no_file_line name.now) }
{
    let mut line = Row::new(alloc);
    push_text(&mut line, "fpp: no file ")?;
    push_text(&mut line, name)?;
    push_text(&mut line, "\n")?;
    Ok(line)
}

pub fn no_topology_line(alloc: Global, name: &str) -> Result<Row<u8>, NoMemory>
    ensures { IfOk result (λ line. line ≡ no_topology_line name.now) }
{
    let mut line = Row::new(alloc);
    push_text(&mut line, "fpp: no topology ")?;
    push_text(&mut line, name)?;
    push_text(&mut line, "\n")?;
    Ok(line)
}

/// The line of a broken rule at its place in the file of this name.
pub fn refusal_line(alloc: Global, name: &str, refusal: Refusal) -> Result<Row<u8>, NoMemory>
    ensures { IfOk result (λ line. line ≡ refusal_line name.now refusal.place refusal.rule) }
{
    let mut line = Row::new(alloc);
    push_text(&mut line, name)?;
    push_text(&mut line, ":")?;
    push_number(&mut line, refusal.place.line)?;
    push_text(&mut line, ":")?;
    push_number(&mut line, refusal.place.column)?;
    push_text(&mut line, ": ")?;
    push_text(&mut line, refusal.rule.text())?;
    push_text(&mut line, "\n")?;
    Ok(line)
}

/// The line of a rule that the scenario in the file of this name breaks, at its path.
pub fn scenario_line(alloc: Global, file: &str, stop: &PathStop) -> Result<Row<u8>, NoMemory>
    ensures { IfOk result (λ line. line ≡ scenario_line file.now stop.now.path stop.now.rule) }
{
    let mut line = Row::new(alloc);
    push_text(&mut line, file)?;
    push_text(&mut line, ":")?;
    push_text(&mut line, stop.path.as_str())?;
    push_text(&mut line, ": ")?;
    push_text(&mut line, stop.rule.text())?;
    push_text(&mut line, "\n")?;
    Ok(line)
}
