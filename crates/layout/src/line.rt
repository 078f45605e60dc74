// The lines of a page: the heading, and the line of a row, written.
ghost use Rattle.std.specs.Prelude.{◌≡◌, true, [], ◌∷◌, ◌++◌, ◌+◌, ◌^◌, ◌<◌, ◌≤◌, length};
ghost use Rattle.text.specs.Out.{Puts};
ghost use Rattle.board.specs.Limits.{max_bidders};
ghost use Rattle.layout.specs.Limits.{item_columns, line_bytes, blank};
ghost use Rattle.layout.specs.Row.{row_fits};
ghost use Rattle.layout.specs.Page.{padded, item_text, row_line};

use crate::column::{
    GAIN_COLUMNS, ITEM_COLUMNS, LINE_BYTES, NUMBER_COLUMNS, WEIGHT_COLUMNS, put_column,
};
use crate::row::Row;
use text::print::Out;

pub(crate) const HEADING: &[u8; LINE_BYTES] = b"BAT KT   WORTH       GAIN\n";

// Byte 12 stands before each heading but the first.
pub(crate) const NEXT_HEADING: &[u8; 1 + LINE_BYTES] = b"\x0cBAT KT   WORTH       GAIN\n";

// An item, or dashes where there is none, and a blank.
fn put_item_column(out: &mut Out<'_>, item: u64)
    requires { item < 10 ^ item_columns }
    ensures { Puts out.old out.new (padded item_columns (item_text item) ++ (blank ∷ [])) }
{
    if item == 0 {
        out.put_all(b"-- ");
    } else {
        put_column(out, ITEM_COLUMNS, item, b' ');
    }
}

// The line of row n.
pub(crate) fn put_row(out: &mut Out<'_>, n: u64, row: Row)
    requires number { n ≤ max_bidders }
    requires fits { row_fits row ≡ true }
    ensures { Puts out.old out.new (row_line n row) }
{
    put_column(out, NUMBER_COLUMNS, n, b' ');
    put_item_column(out, row.item);
    put_column(out, WEIGHT_COLUMNS, row.weight, b' ');
    put_column(out, GAIN_COLUMNS, row.gain, b'\n');
}

// The line of row n by itself.
pub(crate) fn row_line(n: u64, row: Row) -> [u8; LINE_BYTES]
    requires number { n ≤ max_bidders }
    requires fits { row_fits row ≡ true }
    ensures { result ≡ row_line n row }
{
    let mut line = [0u8; LINE_BYTES];
    put_row(&mut Out::new(&mut line), n, row);
    line
}
