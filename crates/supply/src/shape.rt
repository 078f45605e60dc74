// Which place belongs to which item. Places stand in item order, those of an item side by side.
ghost use Rattle.std.specs.Prelude.{◌≡◌, ◌+◌, ◌≤◌, ◌<◌};
ghost use Rattle.duality.specs.Lists.{cells};
ghost use Rattle.board.specs.Limits.{max_items};
ghost use Rattle.places.specs.Places.{places_to};
ghost use Rattle.supply.specs.Shape.{Starts, Belongs, Fits, filled};

use crate::record::Items;
use crate::spread::spread_row;
use board::record::Auction;

// The places of an item, by its cell. No bare `usize::from`: its callers need that so many are below 256.
pub fn count_in(cell: u8) -> usize
    ensures count { result ≡ cell }
    ensures few { result < 256 }
{
    usize::from(cell)
}

// How many places the first n items have.
// A list and a number: docs name it so, and `places_to` is of so many items.
pub fn places_to(places: &[u8; Auction::MAX_ITEMS], n: usize) -> usize
    requires { n ≤ max_items }
    ensures { result ≡ places_to (cells places.now) n }
{
    let mut all = 0;
    for &cell in &places[..n] {
        all += usize::from(cell);
    }
    all
}

// The first place of each item. The walk that adds up places stands here, in `spread_row` and in `prices_by_item`: its two lines are
// less than a closure for what each does with them. `Fits` stays a clause, here and below: `Items` is a record of C, which may hold anything.
pub fn starts_of(items: Items) -> [usize; Auction::MAX_ITEMS]
    requires { Fits items }
    ensures { Starts items result }
{
    let count = items.count as usize;
    let mut starts = [0usize; Auction::MAX_ITEMS];
    let mut next = 0;
    for k in 0..count {
        starts[k] = next;
        next += usize::from(items.places[k]);
    }
    starts
}

// A number in so many cells, from one on. Most items have one place, so one cell is written without a loop.
pub(crate) fn fill(list: &mut [u32; Auction::MAX_ITEMS], from: usize, cells: usize, value: u32)
    requires { from + cells ≤ max_items }
    ensures { list.new ≡ filled list.old from cells value }
{
    if cells == 1 {
        list[from] = value;
        return;
    }
    for j in 0..cells {
        list[from + j] = value;
    }
}

// The item of each place: the row of the items' own cells, by place.
pub fn owners_of(items: Items) -> [u32; Auction::MAX_ITEMS]
    requires { Fits items }
    ensures { Belongs items result }
{
    let mut cells = [0u32; Auction::MAX_ITEMS];
    for k in 0..Auction::MAX_ITEMS {
        cells[k] = k as u32;
    }
    spread_row(items, cells)
}
