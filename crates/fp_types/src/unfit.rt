ghost use Rattle.std.specs.Prelude.{◌≡◌};

use fp_base::NoMemory;

/// Why a value doesn't convert to a type.
#[derive(Clone, Copy, PartialEq, Eq)]
pub enum Unfit {
    /// The forms of value and type don't agree.
    Shape,
    /// An integer isn't in its integer type.
    Range,
    /// A struct value names a member that its struct lacks.
    Member,
    NoMemory,
}

impl From<NoMemory> for Unfit {
    ghost use Rattle.fp_types.specs.declared.unfit.Unfit.TheVariants.{NoMemory};

    ghost from_gives = { λ _ unfit. unfit ≡ NoMemory };

    fn from(_: NoMemory) -> Unfit {
        Unfit::NoMemory
    }
}
