// Writing: a board's page, into a lent list.
ghost use Rattle.std.specs.Prelude.{◌≡◌, ℕ, ◌*◌, ◌≤◌, ◌<◌, length, get_or};
ghost use Rattle.duality.specs.Lists.{cells};
ghost use Rattle.duality.specs.Matching.{at_cell};
ghost use Rattle.board.specs.Limits.{max_items, max_bidders};
ghost use Rattle.board.specs.Cells.{row_in};
ghost use Rattle.page.specs.Writing.{wrote, write_page_of};

use board::lent::columns_of;
use board::record::Auction;
use board::units::weight_in;
use layout::write::{page_bytes, put_page};
use refusals::Refusal;
use supply::columns::read_by_item;
use supply::record::Board;

// The weight of bidder i + 1's edge at a place, 0 for no place.
fn weight_held(weights: &[u32; Auction::MAX_CELLS], i: usize, place: usize) -> u64
    requires bidder { i < max_bidders }
    requires place { place ≤ max_items }
    ensures { result ≡ at_cell (λ k. get_or (row_in weights.now i) k 0) place }
{
    if place == 0 {
        return 0;
    }
    weight_in(weights[i * Auction::MAX_ITEMS + (place - 1)]).0
}

// The same for each of the first bidders, at the place that it has.
fn weights_held(
    weights: &[u32; Auction::MAX_CELLS],
    plan: [u64; Auction::MAX_BIDDERS],
    bidders: usize,
) -> [u64; Auction::MAX_BIDDERS]
    requires bidders { bidders ≤ max_bidders }
    requires plan { (i : ℕ) → i < bidders → cells plan i ≤ max_items }
    ensures { (i : ℕ) → i < bidders → cells result i ≡ at_cell (λ k. get_or (row_in weights.now i) k 0) (cells plan i) }
{
    let mut held = [0u64; Auction::MAX_BIDDERS];
    for i in 0..bidders {
        held[i] = weight_held(weights, i, plan[i] as usize);
    }
    held
}

// Writes the page of a board, and answers how many bytes it has.
pub fn write_page(board: &Board, page: &mut [u8]) -> Result<u64, Refusal>
    ensures { wrote result page.new ≡ write_page_of board.now page.old }
{
    if !board.is_sound() {
        return Err(Refusal::Spoilt);
    }
    let bidders = board.market.arrived as usize;
    if page.len() < page_bytes(bidders) {
        return Err(Refusal::Short);
    }
    let by_place = columns_of(board.state, board.market.items as usize);
    let weights = weights_held(&board.weights, by_place.plan, bidders);
    let columns = read_by_item(by_place, board.items, bidders);
    let bytes = put_page(page, &columns.plan, &weights, &columns.gains, bidders);
    Ok(bytes as u64)
}
