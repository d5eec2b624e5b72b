ghost use Rattle.std.specs.Prelude.{List};

/// One entry of a history: the item, the number of the pass that left it, and the stamp that this pass had seen.
#[derive(Clone, Copy, Drop)]
pub struct Entry<I> {
    pub item: I,
    pub by: u32,
    pub seen: u64,
}

/// A value with a name, and with a history that says which pass left each entry.
pub trait Booked {
    ghost use Rattle.fp_gate.specs.declared.booked.Entry.{Entry};

    type Name;

    type Item;

    ghost name: { Self → Self.Name };

    ghost history: { Self → List (Entry Self.Item) };
}
