ghost use Rattle.std.specs.Prelude.{◌≡◌};

use fp_base::NoMemory;

/// Why a text is no format.
#[derive(Clone, Copy)]
pub enum FormatFault {
    /// A field has a form other than `{}`, `{d}`, `{x}`, `{o}` and `{c}`.
    Field,
    /// A brace is part of no field or escape.
    Brace,
    NoMemory,
}

impl From<NoMemory> for FormatFault {
    ghost use Rattle.std.specs.Prelude.{◌≡◌};
    ghost use Rattle.fp_formats.specs.declared.fault.FormatFault.TheVariants as fault;

    ghost from_gives = { λ _ given. given ≡ fault.NoMemory };

    fn from(_: NoMemory) -> FormatFault {
        FormatFault::NoMemory
    }
}
