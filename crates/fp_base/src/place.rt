ghost use Rattle.std.specs.Prelude.{◌≡◌, ◌-◌, ◌^◌, ◌<◌, ◌≤◌, length};
ghost use Rattle.fp_base.specs.Places.{place_at};

/// A place in a source: the file's position in the list of files read, and a line and a column that count from 1, columns in
/// bytes.
#[derive(Clone, Copy, PartialEq, Eq)]
pub struct Place {
    pub file: u32,
    pub line: u32,
    pub column: u32,
}

/// A stretch of a source: the place of its first byte, and the place directly after its last.
#[derive(Clone, Copy, PartialEq, Eq)]
pub struct Span {
    pub first: Place,
    pub past: Place,
}

/// The place of an offset in a text: after each newline a line begins.
pub fn place_of(file: u32, text: &[u8], offset: usize) -> Place
    requires within { offset ≤ length text.now }
    requires short { offset < 2 ^ 32 - 1 }
    ensures { result ≡ place_at file text.now offset }
{
    let first = Place {
        file,
        line: 1,
        column: 1,
    };
    place_after(text, first, 0, offset)
}

/// The place of an offset, from the place of one before it.
pub fn place_after(text: &[u8], place: Place, from: usize, to: usize) -> Place
    requires place { place ≡ place_at place.file text.now from }
    requires order { from ≤ to }
    requires within { to ≤ length text.now }
    requires short { to < 2 ^ 32 - 1 }
    ensures { result ≡ place_at place.file text.now to }
{
    let Place {
        file,
        mut line,
        mut column,
    } = place;
    let mut at = from;
    'bytes: while at < to {
        if text[at] == b'\n' {
            line += 1;
            column = 1;
        } else {
            column += 1;
        }
        at += 1;
    }
    Place { file, line, column }
}
