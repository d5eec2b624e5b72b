ghost use Rattle.std.specs.Prelude.{◌≡◌, IfOk};
ghost use Rattle.fp_scenario_run.specs.Told.{count_of, counts_text, is_put, is_take};

use fp_base::{NoMemory, Row};
use fp_events::{Entry, Finish, What};
use fp_logtext::{push_finish, push_number, push_text};
use std::alloc::Global;

fn is_put(what: &What) -> bool
    ensures { result ≡ is_put what.now }
{
    match what {
        What::Put { .. } => true,
        _ => false,
    }
}

fn is_take(what: &What) -> bool
    ensures { result ≡ is_take what.now }
{
    match what {
        What::Take { .. } => true,
        _ => false,
    }
}

fn puts_in(entries: &[Entry]) -> usize
    ensures { result ≡ count_of is_put entries.now }
{
    let mut puts = 0;
    for entry in entries {
        if is_put(&entry.what) {
            puts += 1;
        }
    }
    puts
}

fn takes_in(entries: &[Entry]) -> usize
    ensures { result ≡ count_of is_take entries.now }
{
    let mut takes = 0;
    for entry in entries {
        if is_take(&entry.what) {
            takes += 1;
        }
    }
    takes
}

/// The counts of a run of the load with so many instances, and its end.
pub fn counts_of(
    alloc: Global,
    instances: u32,
    entries: &[Entry],
    finish: Finish,
) -> Result<Row<u8>, NoMemory>
    ensures { IfOk result (λ text. text ≡ counts_text instances entries.now finish) }
{
    let mut text = Row::new(alloc);
    push_text(&mut text, "make ")?;
    push_number(&mut text, instances)?;
    push_text(&mut text, "\nputs ")?;
    push_number(&mut text, puts_in(entries))?;
    push_text(&mut text, "\ntakes ")?;
    push_number(&mut text, takes_in(entries))?;
    push_text(&mut text, "\n")?;
    push_finish(finish, &mut text)?;
    Ok(text)
}
