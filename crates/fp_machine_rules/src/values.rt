ghost use Rattle.std.specs.Prelude.{◌≡◌, ◌<◌, ◌^◌, ◌++◌, IfOk, OnOk, MatchBool, List, Option, length, slice_get};
ghost use Rattle.fp_machine_rules.specs.Branching.{branch_rows};
ghost use Rattle.fp_machine_rules.specs.Forms.{is_choice};
ghost use Rattle.fp_machine_rules.specs.Giving.{signal_other, means_other, gives_other, target_in, plain_form, start_in, other_starts, other_flag};
ghost use Rattle.fp_machine_rules.specs.Leaving.{AreFlags};
ghost use Rattle.fp_machine_rules.specs.Undefined.{flags_from, is_marked};
ghost use Rattle.fp_machine_rules.specs.Values.{IsGivenOther, IsMisgiven, AreUseFlags};
ghost use Rattle.fp_machine_rules.specs.declared.item.Item.{Item};

use crate::item::{Form, Item, Meaning, Target, Use};
use crate::reaching::reach;
use crate::rings::branches;
use fp_base::{NoMemory, Row};
use std::alloc::Global;

/// In which items another value than one of a type is given, or none: in a choice by some way into it, perhaps through other choices.
fn given_other(
    alloc: Global,
    items: &[Item],
    signals: &[Option<u32>],
    wanted: u32,
) -> Result<Vec<bool>, NoMemory>
    ensures { IfOk result (λ flags. AreFlags (IsGivenOther items.now signals.now wanted) (length items.now) flags.items) }
{
    let rows = branches(alloc, items)?;
    given_by(alloc, items, signals, wanted, &rows)
}

/// Which uses of actions and guards are of something that takes a value, where another is given or none.
pub fn misgiven(
    alloc: Global,
    items: &[Item],
    signals: &[Option<u32>],
    uses: &[Use],
) -> Result<Vec<bool>, NoMemory>
    ensures { IfOk result (λ flags. AreUseFlags items.now signals.now uses.now (length uses.now) flags.items) }
{
    let mut flags = Vec::with_capacity(alloc, uses.len())?;
    for one in uses {
        flags.push(is_misgiven(alloc, items, signals, *one)?)?;
    }
    Ok(flags)
}

fn is_misgiven(
    alloc: Global,
    items: &[Item],
    signals: &[Option<u32>],
    one: Use,
) -> Result<bool, NoMemory>
    ensures { IfOk result (λ is. MatchBool is (IsMisgiven items.now signals.now one) (IsMisgiven items.now signals.now one → ⊥)) }
{
    match one.means {
        Meaning::Typed(wanted) => is_given_other(alloc, items, signals, wanted, one.item),
        Meaning::Nothing => Ok(false),
        Meaning::Plain => Ok(false),
    }
}

fn is_given_other(
    alloc: Global,
    items: &[Item],
    signals: &[Option<u32>],
    wanted: u32,
    item: u32,
) -> Result<bool, NoMemory>
    ensures { IfOk result (λ is. MatchBool is (IsGivenOther items.now signals.now wanted item) (IsGivenOther items.now signals.now wanted item → ⊥)) }
{
    match plain_form(items, item) {
        Some(form) => Ok(gives_other(signals, wanted, form)),
        None => is_led_other(alloc, items, signals, wanted, item),
    }
}

/// The form of an item that isn't a choice.
fn plain_form(items: &[Item], item: u32) -> Option<Form>
    ensures { result ≡ plain_form items.now item }
{
    let form = items.get(item as usize)?.form;
    if is_choice(form) { None } else { Some(form) }
}

fn is_led_other(
    alloc: Global,
    items: &[Item],
    signals: &[Option<u32>],
    wanted: u32,
    item: u32,
) -> Result<bool, NoMemory>
    ensures { IfOk result (λ is. MatchBool is (IsGivenOther items.now signals.now wanted item) (IsGivenOther items.now signals.now wanted item → ⊥)) }
{
    let flags = given_other(alloc, items, signals, wanted)?;
    Ok(is_marked(&flags, item as usize))
}

fn given_by(
    alloc: Global,
    items: &[Item],
    signals: &[Option<u32>],
    wanted: u32,
    rows: &[Row<Target>],
) -> Result<Vec<bool>, NoMemory>
    requires { rows.now ≡ branch_rows items.now }
    ensures { IfOk result (λ flags. AreFlags (IsGivenOther items.now signals.now wanted) (length items.now) flags.items) }
{
    let starts = starts_of(alloc, items, signals, wanted)?;
    let visit = reach(alloc, rows, starts.as_slice())?;
    other_flags(alloc, items, signals, wanted, &visit.seen)
}

fn starts_of(
    alloc: Global,
    items: &[Item],
    signals: &[Option<u32>],
    wanted: u32,
) -> Result<Row<Target>, NoMemory>
    ensures { IfOk result (λ starts. starts ≡ other_starts signals.now wanted items.now) }
{
    let mut starts = Row::new(alloc);
    for item in items {
        add_start(signals, wanted, item.form, &mut starts)?;
    }
    Ok(starts)
}

fn add_start(
    signals: &[Option<u32>],
    wanted: u32,
    form: Form,
    starts: &mut Row<Target>,
) -> Result<(), NoMemory>
    ensures { OnOk result (starts.new ≡ starts.old ++ start_in signals.now wanted form) }
{
    if gives_other(signals, wanted, form) {
        add_target(form, starts)
    } else {
        Ok(())
    }
}

fn add_target(form: Form, starts: &mut Row<Target>) -> Result<(), NoMemory>
    ensures { OnOk result (starts.new ≡ starts.old ++ target_in form) }
{
    match form {
        Form::Initial(target) => starts.push(target),
        Form::On { target, .. } => starts.push(target),
        Form::State(_) => Ok(()),
        Form::Choice { .. } => Ok(()),
        Form::Entry => Ok(()),
        Form::Exit => Ok(()),
        Form::Declares(_) => Ok(()),
    }
}

fn gives_other(signals: &[Option<u32>], wanted: u32, form: Form) -> bool
    ensures { result ≡ gives_other signals.now wanted form }
{
    match form {
        Form::Initial(_) => true,
        Form::On { means, .. } => means_other(signals, means, wanted),
        Form::Entry => true,
        Form::Exit => true,
        Form::Declares(_) => false,
        Form::State(_) => false,
        Form::Choice { .. } => false,
    }
}

fn means_other(signals: &[Option<u32>], means: Option<u32>, wanted: u32) -> bool
    ensures { result ≡ means_other signals.now means wanted }
{
    match means {
        None => false,
        Some(at) => signal_other(value_at(signals, at), wanted),
    }
}

fn value_at(signals: &[Option<u32>], at: u32) -> Option<Option<u32>>
    ensures { result ≡ slice_get signals.now at }
{
    signals.get(at as usize).copied()
}

fn signal_other(value: Option<Option<u32>>, wanted: u32) -> bool
    ensures { result ≡ signal_other value wanted }
{
    match value {
        None => false,
        Some(given) => match given {
            None => true,
            Some(kind) => kind != wanted,
        },
    }
}

fn other_flags(
    alloc: Global,
    items: &[Item],
    signals: &[Option<u32>],
    wanted: u32,
    seen: &[bool],
) -> Result<Vec<bool>, NoMemory>
    ensures { IfOk result (λ flags. flags.items ≡ flags_from (other_flag signals.now wanted seen.now) 0 items.now) }
{
    let mut flags = Vec::with_capacity(alloc, items.len())?;
    for (at, item) in items.iter().enumerate() {
        flags.push(is_other(item, signals, wanted, seen, at))?;
    }
    Ok(flags)
}

fn is_other(item: &Item, signals: &[Option<u32>], wanted: u32, seen: &[bool], at: usize) -> bool
    ensures { result ≡ other_flag signals.now wanted seen.now at item.now }
{
    let other = gives_other(signals, wanted, item.form);
    let marked = is_marked(seen, at);
    other | (is_choice(item.form) & marked)
}

pub fn is_marked(seen: &[bool], at: usize) -> bool
    ensures { result ≡ is_marked seen.now at }
{
    match seen.get(at) {
        Some(was) => *was,
        None => false,
    }
}

fn is_choice(form: Form) -> bool
    ensures { result ≡ is_choice form }
{
    match form {
        Form::Choice { .. } => true,
        Form::State(_) => false,
        Form::Initial(_) => false,
        Form::On { .. } => false,
        Form::Entry => false,
        Form::Exit => false,
        Form::Declares(_) => false,
    }
}
