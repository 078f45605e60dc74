// What the count is lent: the live edges of the first bidders at the first items, row by row, and the places of each item, all free.
ghost use Rattle.std.specs.Prelude.{◌≡◌, ◌<◌};
ghost use Rattle.board.specs.Limits.{max_bidders};
ghost use Rattle.supply.specs.ByItem.{live};
ghost use Rattle.counting.specs.Rows.{if_item, RowsOf, FreeOf};

use crate::limits::{CELLS, COUNTED};
use matching::live::LiveSheet;
use supply::record::Items;

// The weight of the live edge between a bidder and an item, 0 where there is none or no such item, as `if_item` has it.
fn cell_of(sheet: &LiveSheet, bidder: usize, item: usize) -> u64
    requires { bidder < max_bidders }
    ensures { result ≡ if_item sheet.now.items (live sheet.now) bidder item }
{
    if item as u64 >= sheet.items() {
        return 0;
    }
    sheet.weight(bidder, item).0
}

// The rows of the first 6 bidders.
pub(crate) fn rows_of(sheet: &LiveSheet) -> [u64; CELLS]
    ensures { RowsOf sheet.now.items (live sheet.now) result }
{
    let mut rows = [0; CELLS];
    for c in 0..CELLS {
        rows[c] = cell_of(sheet, c / COUNTED, c % COUNTED);
    }
    rows
}

// The places of the first 6 items.
pub(crate) fn free_of(items: &Items) -> [u8; COUNTED]
    ensures { FreeOf items.now result }
{
    let mut free = [0; COUNTED];
    free.copy_from_slice(&items.places[..COUNTED]);
    free
}
