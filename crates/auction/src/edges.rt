// An arrival's edges: tested one by one as they come, and written as a row.
ghost use Rattle.std.specs.Prelude.{◌≡◌, ℕ, ◌≤◌, ◌<◌, min, length, take};
ghost use Rattle.board.specs.Limits.{max_items, max_edges, max_weight};
ghost use Rattle.refusals.specs.Demand1.{first_of};
ghost use Rattle.board.specs.Ranges.{Within};
ghost use Rattle.supply.specs.ByItem.{withdrawn_at};
ghost use Rattle.auction.specs.Edges.{item_in, weight_in, edge_checks, edges_checks, row_to, buffer_edges};

use arrayvec::ArrayVec;
use board::ranges::is_within;
use board::record::{Auction, Edge};
use board::units::Pence;
use matching::live::LiveSheet;
use refusals::Refusal;

// The edges of an arrival as two lists side by side: of each edge the item's number and the weight. Only the first `count` count, and 65 at most. C hands
// it so.
#[repr(C)]
#[derive(Clone, Copy)]
pub struct EdgeBuffer {
    pub items: [u64; Auction::MAX_EDGES],
    pub weights: [u64; Auction::MAX_EDGES],
    pub count: u64,
}

// The edge of cell i, tested.
#[tactic(auto, using(crate::proofs::EdgeTests::item_tests), unfolding(crate::specs::Edges::edge_checks, refusals::specs::Demand1::first_of))]
fn edge_verdict(sheet: &LiveSheet, edges: &[Edge], i: usize) -> Result<(), Refusal>
    requires { i < length edges.now }
    ensures { result ≡ first_of (edge_checks sheet.now.items.count (withdrawn_at sheet.now) (item_in edges.now) (weight_in edges.now) i) }
{
    let place = i as u64 + 1;
    let edge = edges[i];
    if !is_within(sheet.items(), edge.item) {
        return Err(Refusal::Unknown(place));
    }
    if sheet.is_gone((edge.item - 1) as usize) {
        return Err(Refusal::Gone(place));
    }
    if !is_within(Auction::MAX_WEIGHT, edge.weight.0) {
        return Err(Refusal::Worth(place));
    }
    if i > 0 && edge.item <= edges[i - 1].item {
        return Err(Refusal::Order(place));
    }
    Ok(())
}

// All edges, each tested before the next. No more than 64 can pass, one for each item. `items_verdict` has the same loop over tests of its own: as one
// function it would take the test as a closure, with more words of contract than the loop has.
pub(crate) fn edges_verdict(sheet: &LiveSheet, edges: &[Edge]) -> Result<(), Refusal>
    ensures { result ≡ first_of (edges_checks sheet.now.items.count (withdrawn_at sheet.now) (item_in edges.now) (weight_in edges.now) 0 (length edges.now)) }
{
    for i in 0..edges.len() {
        edge_verdict(sheet, edges, i)?;
    }
    Ok(())
}

// The row that tested edges make.
pub(crate) fn row_of(edges: &[Edge]) -> [u32; Auction::MAX_ITEMS]
    requires items { (i : ℕ) → i < length edges.now → Within 1 max_items (item_in edges.now i) }
    requires weights { (i : ℕ) → i < length edges.now → Within 1 max_weight (weight_in edges.now i) }
    ensures { result ≡ row_to (item_in edges.now) (weight_in edges.now) (length edges.now) }
{
    let mut row = [0u32; Auction::MAX_ITEMS];
    for edge in edges {
        row[(edge.item - 1) as usize] = edge.weight.0 as u32;
    }
    row
}

// How many of so many edges or items are looked at.
pub fn enough(count: usize) -> usize
    ensures { result ≡ min count max_edges }
{
    count.min(Auction::MAX_EDGES)
}

// A buffer's edges.
pub(crate) fn edges_of(buffer: &EdgeBuffer) -> ArrayVec<Edge, { Auction::MAX_EDGES }>
    ensures { result.items ≡ buffer_edges buffer.now }
{
    let mut edges = ArrayVec::new();
    for i in 0..enough(buffer.count as usize) {
        edges.push(Edge {
            item: buffer.items[i],
            weight: Pence(buffer.weights[i]),
        });
    }
    edges
}
