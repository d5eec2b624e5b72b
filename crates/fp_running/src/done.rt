ghost use Rattle.std.specs.Prelude.{◌≡◌, [], ◌∷◌, ◌++◌};
ghost use Rattle.std.specs.List.{list_any};
ghost use Rattle.fp_events.specs.Ends.{is_asserted};

use crate::listed::Listed;
use fp_events::{Entry, What};
use std::marker::Model;
use std::snapshot::Snapshot;

/// The entries that were done. Only proofs read the list; the code keeps whether an assert stands in it.
#[derive(Drop)]
pub struct Done {
    list: Snapshot<Listed<Entry>>,
    asserted: bool,
}

impl Model for Done {
    ghost use Rattle.std.specs.Prelude.{◌≡◌, List};
    ghost use Rattle.std.specs.List.{list_any};
    ghost use Rattle.std.specs.Coded.{codes};
    ghost use Rattle.fp_base.specs.contracts.value.Value as value;
    ghost use Rattle.fp_events.specs.declared.event.Entry.{Entry as EntryOf};
    ghost use Rattle.fp_events.specs.Ends.{is_asserted};

    ghost Value = { List EntryOf };

    ghost coded = { Prim.hlevel (codes, value.the_row.coded) };

    ghost view = { λ d. d.list.value.items };

    ghost invariant = { λ d. d.asserted ≡ list_any (λ e. is_asserted e.what) d.list.value.items };
}

impl Done {
    pub(crate) fn nothing() -> Done
        ensures { result ≡ [] }
    {
        Done {
            list: Snapshot::of(&Listed::new()),
            asserted: false,
        }
    }

    pub(crate) fn add(&mut self, entry: &Entry)
        ensures { self.new ≡ self.old ++ entry.now ∷ [] }
    {
        let asserts = is_assert(&entry.what);
        self.asserted = self.asserted | asserts;
        self.list = Snapshot::of(&Listed::and(&self.list, entry));
    }

    pub(crate) fn has_assert(&self) -> bool
        ensures { result ≡ list_any (λ e. is_asserted e.what) self.now }
    {
        self.asserted
    }
}

fn is_assert(what: &What) -> bool
    ensures { result ≡ is_asserted what.now }
{
    matches!(what, What::Asserted(_))
}
