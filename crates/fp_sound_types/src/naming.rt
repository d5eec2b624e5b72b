ghost use Rattle.std.specs.Prelude.{◌≡◌};
ghost use Rattle.std.specs.List.{list_all};
ghost use Rattle.fp_base.specs.Names.{is_letter, is_name_byte, is_name};
ghost use Rattle.fp_tables.specs.Names.{is_qualified};
ghost use Rattle.fp_tables.specs.Sound.{formals_have_names};

use fp_base::Text;
use fp_tables::Formal;

fn is_letter(byte: u8) -> bool
    ensures { result ≡ is_letter byte }
{
    byte.is_ascii_alphabetic() || byte == b'_'
}

fn is_name_byte(byte: u8) -> bool
    ensures { result ≡ is_name_byte byte }
{
    is_letter(byte) || byte.is_ascii_digit()
}

fn all_continue(bytes: &[u8]) -> bool
    ensures { result ≡ list_all is_name_byte bytes.now }
{
    bytes.iter().all(|byte| is_name_byte(*byte))
}

pub fn is_name(text: &Text) -> bool
    ensures { result ≡ is_name text.now }
{
    match text.as_bytes().split_first() {
        Some((first, rest)) => is_letter(*first) && all_continue(rest),
        None => false,
    }
}

pub fn is_qualified(text: &Text) -> bool
    ensures { result ≡ is_qualified text.now }
{
    let mut begun = false;
    for byte in text.as_bytes() {
        let fits = if *byte == b'.' {
            begun
        } else if begun {
            is_name_byte(*byte)
        } else {
            is_letter(*byte)
        };
        if !fits {
            return false;
        }
        begun = *byte != b'.';
    }
    begun
}

pub fn formals_have_names(formals: &[Formal]) -> bool
    ensures { result ≡ formals_have_names formals.now }
{
    formals.iter().all(|formal| is_name(&formal.name))
}
