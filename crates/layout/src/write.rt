// A page written to a lent list as far as it goes, and its length.
ghost use Rattle.std.specs.Prelude.{◌≡◌, true, [], suc, ◌+◌, ◌^◌, ◌<◌, ◌≤◌, length};
ghost use Rattle.text.specs.Print.{Put};
ghost use Rattle.text.specs.Out.{Puts};
ghost use Rattle.board.specs.Limits.{max_bidders};
ghost use Rattle.layout.specs.Limits.{page_bytes};
ghost use Rattle.layout.specs.Row.{row_fits};
ghost use Rattle.layout.specs.Page.{headed, breaks, row_line, page_of};
ghost use Rattle.layout.specs.Written.{row_among, rows_of, Writable};

use crate::column::LINE_BYTES;
use crate::line::{HEADING, NEXT_HEADING, put_row};
use crate::read::{ROWS_TO_HEADING, breaks_after};
use crate::row::Row;
use board::record::Auction;
use text::print::Out;

// No page is longer.
pub const MAX_PAGE: usize = (1 + Auction::MAX_BIDDERS) * LINE_BYTES
    + (Auction::MAX_BIDDERS - 1) / ROWS_TO_HEADING * (1 + LINE_BYTES);

// The bytes of a page of so many rows.
pub fn page_bytes(rows: usize) -> usize
    requires { rows ≤ max_bidders }
    ensures { result ≡ page_bytes rows }
{
    (1 + rows) * LINE_BYTES + rows.saturating_sub(1) / ROWS_TO_HEADING * (1 + LINE_BYTES)
}

// The heading that may be due after i rows.
fn put_break(out: &mut Out<'_>, i: u64)
    ensures { Puts out.old out.new (headed (breaks i) []) }
{
    if breaks_after(i) {
        out.put_all(NEXT_HEADING);
    }
}

// Row i + 1, with the heading that may be due before it.
fn put_entry(out: &mut Out<'_>, i: u64, row: Row)
    requires number { i < max_bidders }
    requires fits { row_fits row ≡ true }
    ensures { Puts out.old out.new (headed (breaks i) (row_line (suc i) row)) }
{
    put_break(out, i);
    put_row(out, i + 1, row);
}

// The page of the first rows of three lists.
// The count is beside the lists, which may be longer: `Writable` is of so many rows.
pub fn put_page(
    out: &mut [u8],
    items: &[u64],
    weights: &[u64],
    gains: &[u64],
    count: usize,
) -> usize
    requires items { count ≤ length items.now }
    requires weights { count ≤ length weights.now }
    requires gains { count ≤ length gains.now }
    requires writable { Writable (row_among items.now weights.now gains.now) count }
    ensures { Put out.old out.new 0 (page_of (rows_of (row_among items.now weights.now gains.now) count)) result }
{
    let mut page = Out::new(out);
    page.put_all(HEADING);
    for i in 0..count {
        let row = Row {
            item: items[i],
            weight: weights[i],
            gain: gains[i],
        };
        put_entry(&mut page, i as u64, row);
    }
    page.at
}
