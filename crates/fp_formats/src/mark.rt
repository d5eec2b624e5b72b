ghost use Rattle.std.specs.Prelude.{◌≡◌, ◌++◌, ◌∷◌, ℕ, List, true, false, MatchOption, MatchResult};
ghost use Rattle.fp_base.specs.Formats.{is_brace};
ghost use Rattle.fp_formats.specs.Spelling.{has_no_brace, is_form, begins_with};
ghost use Rattle.fp_formats.specs.Marks.{mark_text, form_text, IsStop};

use crate::fault::FormatFault;

/// What a field prints.
#[derive(Clone, Copy)]
pub enum Form {
    Any,
    Dec,
    Hex,
    Oct,
    Char,
}

/// What a format's text is made of: bytes of its plain text, and fields.
#[derive(Clone, Copy)]
pub enum Mark {
    Byte(u8),
    Field(Form),
}

/// The first mark, and what stands behind it.
pub fn first_mark(first: u8, behind: &[u8]) -> Result<(Mark, &[u8]), FormatFault>
    ensures { MatchResult result (λ p. first ∷ behind.now ≡ mark_text p.0 ++ p.1.now) (λ fault. IsStop fault (first ∷ behind.now)) }
{
    match first {
        b'{' => after_opening(behind),
        b'}' => after_closing(behind),
        byte => Ok((Mark::Byte(byte), behind)),
    }
}

fn after_closing(behind: &[u8]) -> Result<(Mark, &[u8]), FormatFault>
    ensures { MatchResult result (λ p. 125 ∷ behind.now ≡ mark_text p.0 ++ p.1.now) (λ fault. IsStop fault (125 ∷ behind.now)) }
{
    match behind.split_first() {
        Some((b'}', rest)) => Ok((Mark::Byte(b'}'), rest)),
        _ => Err(FormatFault::Brace),
    }
}

fn after_opening(behind: &[u8]) -> Result<(Mark, &[u8]), FormatFault>
    ensures { MatchResult result (λ p. 123 ∷ behind.now ≡ mark_text p.0 ++ p.1.now) (λ fault. IsStop fault (123 ∷ behind.now)) }
{
    match behind.split_first() {
        Some((b'{', rest)) => Ok((Mark::Byte(b'{'), rest)),
        _ => field_in(behind),
    }
}

fn field_in(behind: &[u8]) -> Result<(Mark, &[u8]), FormatFault>
    requires { begins_with 123 behind.now ≡ false }
    ensures { MatchResult result (λ p. 123 ∷ behind.now ≡ mark_text p.0 ++ p.1.now) (λ fault. IsStop fault (123 ∷ behind.now)) }
{
    match before_closing(behind) {
        None => Err(FormatFault::Brace),
        Some((inside, rest)) => match form_of(inside) {
            Some(form) => Ok((Mark::Field(form), rest)),
            None => Err(FormatFault::Field),
        },
    }
}

fn form_of(inside: &[u8]) -> Option<Form>
    ensures { MatchOption result (is_form inside.now ≡ false) (λ form. form_text form ≡ inside.now) }
{
    match inside {
        [] => Some(Form::Any),
        [b'd'] => Some(Form::Dec),
        [b'x'] => Some(Form::Hex),
        [b'o'] => Some(Form::Oct),
        [b'c'] => Some(Form::Char),
        _ => None,
    }
}

/// The bytes before a closing brace and those behind it, where no other brace stands before it.
fn before_closing(bytes: &[u8]) -> Option<(&[u8], &[u8])>
    ensures { MatchOption result
        ((inside rest : List ℕ) → has_no_brace inside ≡ true → bytes.now ≡ inside ++ (125 ∷ rest) → ⊥)
        (λ p. (bytes.now ≡ p.0.now ++ (125 ∷ p.1.now)) × (has_no_brace p.0.now ≡ true)) }
{
    for (at, byte) in bytes.iter().enumerate() {
        match *byte {
            b'}' => return Some((&bytes[..at], &bytes[at + 1..])),
            b'{' => return None,
            _ => {}
        }
    }
    None
}
