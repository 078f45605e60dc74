// The record of a board. Items, places and bidders are numbered from 1 outside, and are cells from 0 here.
use board::record::{Auction, Market, State};

// The items (document 01: kettles): how many there are, and how many places each has.
#[repr(C)]
#[derive(Clone, Copy)]
pub struct Items {
    pub count: u64,
    // 1 to 8 for an item, 0 past the count.
    pub places: [u8; Auction::MAX_ITEMS],
}

// The board. Market, state and weights are those of an auction over places: what it calls items are the places of all items, in item order, the places
// of an item side by side. An edge at an item stands at each of its places.
#[repr(C)]
#[derive(Clone, Copy)]
pub struct Board {
    pub items: Items,
    pub market: Market,
    pub state: State,
    pub weights: [u32; Auction::MAX_CELLS],
}

impl Board {
    pub const MAX_ITEMS: usize = Auction::MAX_ITEMS;

    pub const MAX_BIDDERS: usize = Auction::MAX_BIDDERS;
    // The most places of an item. All items together have no more than MAX_ITEMS.
    pub const MAX_PLACES: u64 = 8;
}
