ghost use Rattle.std.specs.Prelude.{◌≡◌, ◌++◌, ◌∷◌, [], ◌<◌, ◌⊎◌, false, OnOk};
ghost use Rattle.std.specs.Fmt.{digits, digit_glyph};
ghost use Rattle.fp_base.specs.Rendered.{in_base, character};

use fp_base::{NoMemory, Text};

pub fn push_in_base(number: i128, base: u128, out: &mut Text) -> Result<(), NoMemory>
    requires { (base ≡ 8) ⊎ (base ≡ 16) }
    ensures { OnOk result (out.new ≡ out.old ++ in_base base number) }
{
    if number < 0 {
        out.push_str("-")?;
    }
    push_digits(number.unsigned_abs(), base, out)
}

fn push_digits(number: u128, base: u128, out: &mut Text) -> Result<(), NoMemory>
    requires { (base ≡ 8) ⊎ (base ≡ 16) }
    ensures { OnOk result (out.new ≡ out.old ++ digits base false number) }
{
    if number >= base {
        push_digits(number / base, base, out)?;
    }
    out.push_str(digit_text(number % base))
}

fn digit_text(digit: u128) -> &'static str
    requires { digit < 16 }
    ensures { result.now ≡ digit_glyph false digit ∷ [] }
{
    match digit {
        0 => "0",
        1 => "1",
        2 => "2",
        3 => "3",
        4 => "4",
        5 => "5",
        6 => "6",
        7 => "7",
        8 => "8",
        9 => "9",
        10 => "a",
        11 => "b",
        12 => "c",
        13 => "d",
        14 => "e",
        _ => "f",
    }
}

pub fn push_character(number: i128, out: &mut Text) -> Result<(), NoMemory>
    ensures { OnOk result (out.new ≡ out.old ++ character number) }
{
    let mut buffer = [0; 4];
    out.push_str(char::from(printable(number)).encode_utf8(&mut buffer))
}

/// The byte that stands for a code.
fn printable(number: i128) -> u8
    ensures value { character number ≡ result ∷ [] }
    ensures ascii { result < 128 }
{
    if 32 <= number && number <= 126 {
        number as u8
    } else {
        b'?'
    }
}
