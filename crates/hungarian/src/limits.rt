// The board's limits, as the solver takes them, and the one number that is its own, UNREACHED.
use board::record::Auction;

pub(crate) const ITEMS: usize = Auction::MAX_ITEMS;

pub(crate) const BIDDERS: usize = Auction::MAX_BIDDERS;

// A weight for each bidder and item, at bidder * ITEMS + item.
pub(crate) const WEIGHTS: usize = Auction::MAX_CELLS;

// In pence.
pub(crate) const MAX_WEIGHT: u32 = Auction::MAX_WEIGHT as u32;

// The excess of an item to which no edge has been looked at: more than any gain.
pub(crate) const UNREACHED: u32 = MAX_WEIGHT + 1;
