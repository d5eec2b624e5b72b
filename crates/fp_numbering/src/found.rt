ghost use Rattle.std.specs.Prelude.{◌≡◌, ◌||◌, ℕ, true, cond, Some, None, IfOk, OnOk};
ghost use Rattle.std.specs.List.{list_any};
ghost use Rattle.std.specs.BTreeSet.{contains_by};
ghost use Rattle.std.specs.BTreeMap.{get_by};
ghost use Rattle.fp_tables.specs.Found.{key_cmp};
ghost use Rattle.fp_numbering.specs.Looks.{key_of, is_in, is_lone_in, heads_in, first_from, said_in, noted, note_one, said_part, first_part, origin_by, AreFound};

use crate::looks::{Look, Noted};
use crate::origins::Origin;
use fp_base::{NoMemory, Row};
use std::alloc::Global;
use std::collections::{BTreeMap, BTreeSet};

fn mark(lone: &mut BTreeSet<(u32, u32, u32)>, look: Look) -> Result<(), NoMemory>
    ensures { OnOk result ((q : ℕ × ℕ × ℕ) → contains_by (key_cmp q) lone.new ≡ (contains_by (key_cmp q) lone.old || is_lone_in q look)) }
{
    if look.matched & look.lone {
        lone.insert((look.instance, look.label, look.other))?;
    }
    Ok(())
}

/// The keys of which some end lacks a partner or repeats one.
pub fn lone_of(alloc: Global, looks: &[Look]) -> Result<BTreeSet<(u32, u32, u32)>, NoMemory>
    ensures { IfOk result (λ lone. (q : ℕ × ℕ × ℕ) → contains_by (key_cmp q) lone ≡ list_any (is_lone_in q) looks.now) }
{
    let mut lone = BTreeSet::new(alloc);
    for look in looks {
        mark(&mut lone, *look)?;
    }
    Ok(lone)
}

fn head(
    firsts: &mut BTreeMap<(u32, u32, u32), usize>,
    look: Look,
    at: usize,
) -> Result<(), NoMemory>
    ensures { OnOk result ((q : ℕ × ℕ × ℕ) → get_by (key_cmp q) firsts.new ≡ cond (heads_in q look) (Some at) (get_by (key_cmp q) firsts.old)) }
{
    if look.matched & look.heads {
        firsts.insert((look.instance, look.label, look.other), at)?;
    }
    Ok(())
}

/// For each key its first end at the first port of a match.
fn firsts_of(alloc: Global, looks: &[Look]) -> Result<BTreeMap<(u32, u32, u32), usize>, NoMemory>
    ensures { IfOk result (λ firsts. (q : ℕ × ℕ × ℕ) → get_by (key_cmp q) firsts ≡ first_from 0 (heads_in q) looks.now) }
{
    let mut firsts = BTreeMap::new(alloc);
    let mut at = looks.len();
    while at > 0 {
        at -= 1;
        head(&mut firsts, looks[at], at)?;
    }
    Ok(firsts)
}

fn one_more(number: i128, noted: Option<Noted>) -> Noted
    ensures { Some result ≡ note_one (Some number) noted }
{
    match noted {
        Some(noted) => Noted {
            number: noted.number,
            same: noted.same & (noted.number == number),
        },
        None => Noted { number, same: true },
    }
}

/// One written number more.
pub fn note(numbers: &mut BTreeMap<(u32, u32, u32), Noted>, look: Look) -> Result<(), NoMemory>
    ensures { OnOk result ((q : ℕ × ℕ × ℕ) → get_by (key_cmp q) numbers.new ≡ note_one (cond (is_in q look) look.said None) (get_by (key_cmp q) numbers.old)) }
{
    if !look.matched {
        return Ok(());
    }
    if let Some(number) = look.said {
        let key = (look.instance, look.label, look.other);
        let before = numbers.get(&key).copied();
        numbers.insert(key, one_more(number, before))?;
    }
    Ok(())
}

/// For each key its first written number, and whether all that are written are it.
fn numbers_of(alloc: Global, looks: &[Look]) -> Result<BTreeMap<(u32, u32, u32), Noted>, NoMemory>
    ensures { IfOk result (λ numbers. (q : ℕ × ℕ × ℕ) → get_by (key_cmp q) numbers ≡ noted (said_in q looks.now)) }
{
    let mut numbers = BTreeMap::new(alloc);
    for look in looks {
        note(&mut numbers, *look)?;
    }
    Ok(numbers)
}

fn said_part(said: Option<i128>, paired: bool, noted: Option<Noted>) -> Option<i128>
    ensures { result ≡ said_part said paired noted }
{
    match said {
        Some(said) => Some(said),
        None => match noted {
            Some(noted) => {
                if paired & noted.same {
                    Some(noted.number)
                } else {
                    None
                }
            }
            None => None,
        },
    }
}

fn first_part(paired: bool, noted: Option<Noted>, first: Option<usize>) -> Option<usize>
    ensures { result ≡ first_part paired noted first }
{
    match noted {
        Some(_) => None,
        None => { if paired { first } else { None } }
    }
}

fn origin(look: Look, lone: bool, noted: Option<Noted>, first: Option<usize>) -> Origin
    ensures { result ≡ origin_by look lone noted first }
{
    let paired = look.matched & !lone;
    Origin {
        said: said_part(look.said, paired, noted),
        first: first_part(paired, noted, first),
        free: !look.matched,
    }
}

fn origin_of(
    look: Look,
    lone: &BTreeSet<(u32, u32, u32)>,
    numbers: &BTreeMap<(u32, u32, u32), Noted>,
    firsts: &BTreeMap<(u32, u32, u32), usize>,
) -> Origin
    ensures { result ≡ origin_by look (contains_by (key_cmp (key_of look)) lone.now) (get_by (key_cmp (key_of look)) numbers.now) (get_by (key_cmp (key_of look)) firsts.now) }
{
    let key = (look.instance, look.label, look.other);
    let lacks = lone.contains(&key);
    let noted = numbers.get(&key).copied();
    let first = firsts.get(&key).copied();
    origin(look, lacks, noted, first)
}

/// The origins of all ends.
pub fn origins_of(alloc: Global, looks: &[Look]) -> Result<Row<Origin>, NoMemory>
    ensures { IfOk result (λ origins. AreFound looks.now origins) }
{
    let lone = lone_of(alloc, looks)?;
    let firsts = firsts_of(alloc, looks)?;
    let numbers = numbers_of(alloc, looks)?;
    let mut origins = Row::new(alloc);
    for look in looks {
        origins.push(origin_of(*look, &lone, &numbers, &firsts))?;
    }
    Ok(origins)
}
