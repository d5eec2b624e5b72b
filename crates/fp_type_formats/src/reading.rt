ghost use Rattle.std.specs.Prelude.{◌≡◌, ◌+◌, ◌<◌, ◌^◌, ◌++◌, ◌∷◌, ℕ, List, true, false, MatchOption};
ghost use Rattle.fp_formats.specs.Spelling.{begins_with, has_no_brace};
ghost use Rattle.fp_type_formats.specs.Sorted.{IsNext, IsReadAs, field_mark, nothing_read, unfit_at, with_field, with_mark};

/// What was read of a format.
#[derive(Clone, Copy)]
pub struct Reading {
    pub fields: usize,
    /// A field has another form than `{}`, `{d}`, `{x}`, `{o}` and `{c}`.
    pub other: bool,
    /// A field is one of the last four, and what it prints is no integer.
    pub unfit: bool,
    /// A brace is part of no field or escape.
    pub lone: bool,
}

/// What a part of a format's text is for the rules.
#[derive(Clone, Copy)]
pub enum Mark {
    Text,
    Any,
    Numeric,
    Other,
    Lone,
}

/// What a format's text has, to its end. Whether what a field prints is no integer, `unfit` says of the first fields, one by one, and
/// `others` of all behind these.
pub fn read(text: &[u8], unfit: &[bool], others: bool) -> Reading
    ensures { IsReadAs (unfit_at unfit.now others) text.now result }
{
    let mut reading = nothing_read();
    let mut rest = text;
    while let Some((first, behind)) = rest.split_first() {
        let next = first_mark(*first, behind);
        reading = with_mark(next.0, reading, unfit, others);
        rest = next.1;
    }
    reading
}

fn nothing_read() -> Reading
    ensures { result ≡ nothing_read }
{
    Reading {
        fields: 0,
        other: false,
        unfit: false,
        lone: false,
    }
}

/// The first part, and what stands behind it.
fn first_mark(first: u8, behind: &[u8]) -> (Mark, &[u8])
    ensures { IsNext (first ∷ behind.now) result.0 result.1.now }
{
    match first {
        b'{' => after_opening(behind),
        b'}' => after_closing(behind),
        _ => (Mark::Text, behind),
    }
}

fn after_closing(behind: &[u8]) -> (Mark, &[u8])
    ensures { IsNext (125 ∷ behind.now) result.0 result.1.now }
{
    match behind_brace(b'}', behind) {
        Some(rest) => (Mark::Text, rest),
        None => (Mark::Lone, behind),
    }
}

fn after_opening(behind: &[u8]) -> (Mark, &[u8])
    ensures { IsNext (123 ∷ behind.now) result.0 result.1.now }
{
    match behind_brace(b'{', behind) {
        Some(rest) => (Mark::Text, rest),
        None => field_in(behind),
    }
}

/// What stands behind a brace, where the bytes begin with it.
fn behind_brace(brace: u8, bytes: &[u8]) -> Option<&[u8]>
    ensures { MatchOption result (begins_with brace bytes.now ≡ false) (λ rest. bytes.now ≡ brace ∷ rest.now) }
{
    match bytes.split_first() {
        Some((first, rest)) => { if *first == brace { Some(rest) } else { None } }
        None => None,
    }
}

fn field_in(behind: &[u8]) -> (Mark, &[u8])
    requires { begins_with 123 behind.now ≡ false }
    ensures { IsNext (123 ∷ behind.now) result.0 result.1.now }
{
    match before_closing(behind) {
        None => (Mark::Lone, behind),
        Some((inside, rest)) => (field_mark(inside), rest),
    }
}

fn field_mark(inside: &[u8]) -> Mark
    ensures { result ≡ field_mark inside.now }
{
    match inside {
        [] => Mark::Any,
        [b'd'] => Mark::Numeric,
        [b'x'] => Mark::Numeric,
        [b'o'] => Mark::Numeric,
        [b'c'] => Mark::Numeric,
        _ => Mark::Other,
    }
}

/// The bytes before a closing brace and those behind it, where no other brace stands before it.
fn before_closing(bytes: &[u8]) -> Option<(&[u8], &[u8])>
    ensures { MatchOption result
        ((inside rest : List ℕ) → has_no_brace inside ≡ true → bytes.now ≡ inside ++ (125 ∷ rest) → ⊥)
        (λ p. (bytes.now ≡ p.0.now ++ (125 ∷ p.1.now)) × (has_no_brace p.0.now ≡ true)) }
{
    for (at, byte) in bytes.iter().enumerate() {
        match *byte {
            b'}' => return Some((&bytes[..at], &bytes[at + 1..])),
            b'{' => return None,
            _ => {}
        }
    }
    None
}

fn with_mark(mark: Mark, reading: Reading, unfit: &[bool], others: bool) -> Reading
    requires { reading.fields + 1 < 2 ^ 64 }
    ensures { result ≡ with_mark (unfit_at unfit.now others) mark reading }
{
    match mark {
        Mark::Text => reading,
        Mark::Any => with_field(reading),
        Mark::Numeric => Reading {
            unfit: reading.unfit | unfit_at(unfit, others, reading.fields),
            ..with_field(reading)
        },
        Mark::Other => Reading {
            other: true,
            ..with_field(reading)
        },
        Mark::Lone => Reading {
            lone: true,
            ..reading
        },
    }
}

fn with_field(reading: Reading) -> Reading
    requires { reading.fields + 1 < 2 ^ 64 }
    ensures { result ≡ with_field reading }
{
    Reading {
        fields: reading.fields + 1,
        ..reading
    }
}

fn unfit_at(unfit: &[bool], others: bool, at: usize) -> bool
    ensures { result ≡ unfit_at unfit.now others at }
{
    match unfit.get(at) {
        Some(unfit) => *unfit,
        None => others,
    }
}
