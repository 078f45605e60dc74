// The field that starts at a position of a text: a tab, and a number.
ghost use Rattle.std.specs.Prelude.{◌≡◌, get_or};
ghost use Rattle.text.specs.Number.{is_number, field_at};
ghost use Rattle.text.specs.Reader.{tabbed_at};

use crate::TAB;

// The most decimal digits of a number.
pub const MAX_DIGITS: usize = 7;

// A number, and the position after it.
#[derive(Clone, Copy)]
pub struct Field {
    pub number: u64,
    pub next: usize,
}

// The byte at a position; 0 past the end, as `tabbed_at` and `line_at` of specs/ read it.
pub(crate) fn byte_at(text: &[u8], at: usize) -> u8
    ensures { result ≡ get_or text.now at 0 }
{
    text.get(at).copied().unwrap_or(0)
}

// Whether so many digits, of which the first is given, are a number.
fn is_number(first: u8, count: usize) -> bool
    ensures { result ≡ is_number first count }
{
    1 <= count && count <= MAX_DIGITS && (count == 1 || first != b'0')
}

// The number at a position: all the digits that stand together there.
fn field_at(text: &[u8], at: usize) -> Option<Field>
    ensures { result ≡ field_at text.now at }
{
    let start = text.get(at..)?;
    let mut rest = start;
    let mut number: u64 = 0;
    let mut count: usize = 0;
    while let [digit @ b'0'..=b'9', tail @ ..] = rest {
        if count == MAX_DIGITS {
            return None;
        }
        number = number * 10 + u64::from(*digit - b'0');
        count += 1;
        rest = tail;
    }
    is_number(byte_at(start, 0), count).then_some(Field {
        number,
        next: at + count,
    })
}

// The field at a position: a tab, and the number after it.
pub(crate) fn tabbed_at(text: &[u8], at: usize) -> Option<Field>
    ensures { result ≡ tabbed_at text.now at }
{
    if byte_at(text, at) != TAB {
        return None;
    }
    field_at(text, at + 1)
}
