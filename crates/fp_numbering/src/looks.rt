ghost use Rattle.std.specs.Prelude.{◌≡◌, ◌==◌, [], IfOk};
ghost use Rattle.std.specs.List.{list_any};
ghost use Rattle.std.specs.BTreeSet.{contains_by};
ghost use Rattle.fp_tables.specs.Found.{key_cmp};
ghost use Rattle.fp_numbering.specs.Ends.{matches_of, written_number};
ghost use Rattle.fp_numbering.specs.Pairs.{is_at_first};
ghost use Rattle.fp_numbering.specs.Partners.{is_alone};
ghost use Rattle.fp_numbering.specs.Labels.{label_at};
ghost use Rattle.fp_numbering.specs.Looks.{look_by, AreLooks};

use crate::lanes::label_of;
use crate::partners::{is_alone, is_matched, matches_of, see, seen_of};
use crate::tips::Tip;
use fp_base::{NoMemory, Row};
use fp_tables::Model;
use std::alloc::Global;
use std::collections::BTreeSet;

/// What is looked at in an end for its pair: its key, whether a match pairs it, whether its partner is missing or it repeats one before it,
/// whether it is at the first port of a match, and its written number.
#[derive(Clone, Copy)]
pub struct Look {
    pub instance: u32,
    pub label: u32,
    pub other: u32,
    pub matched: bool,
    pub lone: bool,
    pub heads: bool,
    pub said: Option<i128>,
}

/// The number that is written first among some ends, and whether all that are written are it.
#[derive(Clone, Copy)]
pub struct Noted {
    pub number: i128,
    pub same: bool,
}

fn heads_any(tip: Tip, matches: &[(u32, u32)]) -> bool
    ensures { result ≡ list_any (λ q. tip.port == q.0) matches.now }
{
    matches.iter().any(|one| tip.port == one.0)
}

fn heads(model: &Model, tip: Tip) -> bool
    ensures { result ≡ is_at_first (matches_of model.now) [] tip }
{
    match matches_of(model, tip.instance) {
        Some(matches) => heads_any(tip, matches.as_slice()),
        None => false,
    }
}

fn said(tip: Tip) -> Option<i128>
    ensures { result ≡ written_number tip }
{
    match tip.written {
        Some(written) => Some(written.number),
        None => None,
    }
}

/// What is looked at in an end, where its partners and whether it repeats one before it are known.
fn look_at(
    model: &Model,
    labels: &[Row<u32>],
    seen: &BTreeSet<(u32, u32, u32)>,
    again: bool,
    tip: Tip,
) -> Look
    ensures { result ≡ look_by (matches_of model.now) (label_at model.now labels.now) (λ q. contains_by (key_cmp q) seen.now) again tip }
{
    let label = label_of(model, labels, tip.instance, tip.port);
    let paired = is_matched(model, tip);
    let alone = is_alone(model, seen, tip);
    let first = heads(model, tip);
    let number = said(tip);
    Look {
        instance: tip.instance,
        label,
        other: tip.other,
        matched: !tip.unmatched & paired,
        lone: alone | (again & paired),
        heads: first,
        said: number,
    }
}

/// What is looked at in each end.
pub fn looks_of(
    alloc: Global,
    model: &Model,
    labels: &[Row<u32>],
    tips: &[Tip],
) -> Result<Row<Look>, NoMemory>
    ensures { IfOk result (λ looks. AreLooks (matches_of model.now) tips.now (label_at model.now labels.now) looks) }
{
    let all = seen_of(alloc, tips)?;
    let mut seen = BTreeSet::new(alloc);
    let mut looks = Row::new(alloc);
    for tip in tips {
        let again = see(&mut seen, *tip)?;
        looks.push(look_at(model, labels, &all, again, *tip))?;
    }
    Ok(looks)
}
