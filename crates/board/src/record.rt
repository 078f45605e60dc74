// The record of a board. Items and bidders are numbered from 1 outside, and are cells from 0 here.
ghost use Rattle.std.specs.Prelude.{◌≡◌};
ghost use Rattle.board.specs.Cells.{holder_of};

use crate::units::{Pence, Scaled, Slack};

// An edge as a caller hands it (document 01: an entry): an item's number and a weight.
#[repr(C)]
#[derive(Clone, Copy, Default)]
pub struct Edge {
    pub item: u64,
    pub weight: Pence,
}

// What the bids are made in: how many items there are, at which slack, how many bidders have arrived, and which items are withdrawn. No bid
// changes it.
#[repr(C)]
#[derive(Clone, Copy)]
pub struct Market {
    pub items: u64,
    pub slack: Slack,
    pub arrived: u64,
    // 1 for an item that is withdrawn, 0 for one that is not.
    pub withdrawn: [u8; Auction::MAX_ITEMS],
}

// What bids change: prices, holders and gains.
#[repr(C)]
#[derive(Clone, Copy)]
pub struct State {
    pub price: [Scaled; Auction::MAX_ITEMS],
    // The number of the bidder that holds each item, 0 where nobody does.
    pub holder: [u8; Auction::MAX_ITEMS],
    pub gain: [Scaled; Auction::MAX_BIDDERS],
}

// The board. C shares it and its parts: numbers and bytes, 0 for nobody and for nothing, and arrays side by side.
#[repr(C)]
#[derive(Clone, Copy)]
pub struct Auction {
    pub market: Market,
    pub state: State,
    // The bidders' rows, one after the other: bidder i + 1's edge at item k + 1 is cell 64 × i + k, its weight in pence, 0 where there is none.
    pub weights: [u32; Auction::MAX_CELLS],
}

impl Auction {
    pub const MAX_ITEMS: usize = 64;

    pub const MAX_BIDDERS: usize = 128;
    // A cell for each bidder and item.
    pub const MAX_CELLS: usize = Auction::MAX_BIDDERS * Auction::MAX_ITEMS;

    pub const MAX_WEIGHT: u64 = 1000000;

    pub const MAX_Q: u64 = 1000;
    // The most that a price or a gain may be that was made elsewhere, in q-ths of a penny.
    pub const MAX_PRICE: u64 = 2000000000;
    // One more edge than there are items: so many decide every refusal of an arrival.
    pub const MAX_EDGES: usize = Auction::MAX_ITEMS + 1;
    // The most bytes of a history text.
    pub const MAX_TEXT: usize = 65536;
}

// Who holds an item, by cell. No `Option`: document 01 asks for `let Held(batch) = holder else` where a chain of bids ends.
#[derive(Clone, Copy)]
pub enum Holder {
    Held(usize),
    Free,
}

// What a holder's cell says: by a name of its own, as docs have it.
pub fn holder_of(cell: u8) -> Holder
    ensures { result ≡ holder_of cell }
{
    match cell {
        0 => Holder::Free,
        number => Holder::Held(usize::from(number) - 1),
    }
}
