// A row of a page, and its limits.
ghost use Rattle.std.specs.Prelude.{◌≡◌};
ghost use Rattle.layout.specs.Row.{row_fits};

use board::record::Auction;

// Where a bidder stands, 0 for no item (as `row_fits` has it, and a plan), with its weight there and its gain. Document 02: kettle, worth and gain of a batch.
#[derive(Clone, Copy, Default)]
pub struct Row {
    pub item: u64,
    pub weight: u64,
    pub gain: u64,
}

// The most gain of a row.
pub const MAX_GAIN: u64 = 2000000000;

// Whether a row is within the limits.
pub(crate) fn fits(row: Row) -> bool
    ensures { result ≡ row_fits row }
{
    let is_unplaced = row.item == 0 && row.weight == 0 && row.gain == 0;
    let is_placed = (1..=Auction::MAX_ITEMS as u64).contains(&row.item)
        && (1..=Auction::MAX_WEIGHT).contains(&row.weight)
        && row.gain <= MAX_GAIN;
    is_unplaced || is_placed
}
