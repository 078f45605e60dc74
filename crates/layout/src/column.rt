// The columns of a line, read and written.
ghost use Rattle.std.specs.Prelude.{◌≡◌, [], ◌∷◌, ◌++◌, ◌+◌, ◌^◌, ◌≤◌, ◌<◌, length, replicate};
ghost use Rattle.text.specs.Number.{value_of};
ghost use Rattle.text.specs.Print.{decimal};
ghost use Rattle.text.specs.Out.{Puts};
ghost use Rattle.layout.specs.Limits.{line_bytes, blank};
ghost use Rattle.layout.specs.Page.{padded};
ghost use Rattle.layout.specs.Read.{row_read};

use crate::row::Row;
use text::print::{Out, digit};

// The columns of a line, each closed by one byte.
pub const NUMBER_COLUMNS: usize = 3;

pub const ITEM_COLUMNS: usize = 2;

pub const WEIGHT_COLUMNS: usize = 7;

pub const GAIN_COLUMNS: usize = 10;

// Where they begin.
const ITEM_AT: usize = NUMBER_COLUMNS + 1;

const WEIGHT_AT: usize = ITEM_AT + ITEM_COLUMNS + 1;

const GAIN_AT: usize = WEIGHT_AT + WEIGHT_COLUMNS + 1;

// The bytes of a line, with the byte 10.
pub const LINE_BYTES: usize = GAIN_AT + GAIN_COLUMNS + 1;

// The number in a column: blanks and dashes stand below the digits, and count as 0.
fn column_value(column: &[u8]) -> u64
    requires { length column.now ≤ 11 }
    ensures { result ≡ value_of 0 column.now }
{
    let mut value: u64 = 0;
    for byte in column {
        value = value * 10 + u64::from(byte.saturating_sub(b'0'));
    }
    value
}

// The row of which a line can only be the line.
pub(crate) fn read_row(line: &[u8]) -> Row
    requires { length line.now ≡ line_bytes }
    ensures { result ≡ row_read line.now }
{
    Row {
        item: column_value(&line[ITEM_AT..ITEM_AT + ITEM_COLUMNS]),
        weight: column_value(&line[WEIGHT_AT..WEIGHT_AT + WEIGHT_COLUMNS]),
        gain: column_value(&line[GAIN_AT..GAIN_AT + GAIN_COLUMNS]),
    }
}

fn put_blanks(out: &mut Out<'_>, count: usize)
    ensures { Puts out.old out.new (replicate count blank) }
{
    for _ in 0..count {
        out.put(b' ');
    }
}

// A number at the right of so many columns.
fn put_padded(out: &mut Out<'_>, width: usize, n: u64)
    requires some { 0 < width }
    requires fits { n < 10 ^ width }
    ensures { Puts out.old out.new (padded width (decimal n)) }
{
    if n < 10 {
        put_blanks(out, width - 1);
    } else {
        put_padded(out, width - 1, n / 10);
    }
    out.put(digit(n % 10));
}

// A number at the right of its columns, and the byte that closes them.
pub(crate) fn put_column(out: &mut Out<'_>, width: usize, n: u64, close: u8)
    requires some { 0 < width }
    requires fits { n < 10 ^ width }
    ensures { Puts out.old out.new (padded width (decimal n) ++ (close ∷ [])) }
{
    put_padded(out, width, n);
    out.put(close);
}
