ghost use Rattle.std.specs.Prelude.{◌≡◌, ◌||◌, ℕ, List, IfOk, OnOk};
ghost use denote.Ref.{Bor};
ghost use Rattle.std.specs.BTreeSet.{contains_by};
ghost use Rattle.fp_scenario_check.specs.Keys.{owned_cmp, is_own, AreOwnedBy};

use fp_base::NoMemory;
use fp_scenario::HandlerText;
use fp_scenario_actions::placed_named;
use fp_tables::Tables;
use std::alloc::Global;
use std::collections::BTreeSet;

/// An instance, and the text of a place for which it has a handler of its own.
pub type Owned<'a> = (u32, &'a str);

fn note<'a>(
    owned: &mut BTreeSet<Owned<'a>>,
    tables: &Tables,
    text: &'a HandlerText,
) -> Result<(), NoMemory>
    ensures { OnOk result ((i : ℕ) (on : Bor (List ℕ)) → contains_by (owned_cmp (i, on)) owned.new ≡ (contains_by (owned_cmp (i, on)) owned.old || is_own tables.now i on.now text.now)) }
{
    match placed_named(tables, text.of.as_str()) {
        Some(instance) => {
            owned.insert((instance, text.on_.as_str()))?;
            Ok(())
        }
        None => Ok(()),
    }
}

/// The places of the handlers that are an instance's own.
pub fn owned_of<'a>(
    alloc: Global,
    tables: &Tables,
    texts: &'a [HandlerText],
) -> Result<BTreeSet<Owned<'a>>, NoMemory>
    ensures { IfOk result (AreOwnedBy tables.now texts.now) }
{
    let mut owned = BTreeSet::new(alloc);
    for text in texts {
        note(&mut owned, tables, text)?;
    }
    Ok(owned)
}
