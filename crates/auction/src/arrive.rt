// Arrive: a new bidder with its edges, and the bids that follow.
ghost use Rattle.std.specs.Prelude.{◌≡◌, OnErr};
ghost use Rattle.supply.specs.Sound.{Sound};
ghost use Rattle.board.specs.Cells.{scaled_at};
ghost use Rattle.bidding.specs.Rule.{done};
ghost use Rattle.bidding.specs.Floors.{Floored};
ghost use Rattle.auction.specs.Edges.{buffer_edges};
ghost use Rattle.auction.specs.Arrive.{arrival, arrive_of};

use crate::edges::{EdgeBuffer, edges_of, edges_verdict, row_of};
use bidding::floors::Floors;
use bidding::moves::enter;
use board::record::{Auction, Edge};
use matching::live::LiveSheet;
use refusals::Refusal;
use supply::record::Board;
use supply::spread::spread_row;

// The arrival at a sound board, whose floors are lent with it: the number of bids made, or the refusal. `Live` has the same with nothing asked.
pub fn arrive_in(board: &mut Board, floors: &mut Floors, edges: &[Edge]) -> Result<u64, Refusal>
    requires sound { Sound board.old }
    requires floored { Floored board.old.market (scaled_at board.old.state.price) floors.old }
    ensures answers { done (arrival board.new result) ≡ arrive_of board.old edges.now }
    ensures err { OnErr result (board.new ≡ board.old) }
    ensures floored { Floored board.new.market (scaled_at board.new.state.price) floors.new }
{
    if board.market.arrived >= Auction::MAX_BIDDERS as u64 {
        return Err(Refusal::Full);
    }
    edges_verdict(&LiveSheet::of(board), edges)?;
    let spread = spread_row(board.items, row_of(edges));
    let bids = enter(
        &mut board.market,
        &mut board.weights,
        &mut board.state,
        floors,
        &spread,
    );
    Ok(bids)
}

// A new bidder arrives with the edges of a slice of any length, and bids. `withdraw` begins alike: a function for the two lines would take as many.
#[tactic(auto, using(crate::proofs::Sounding::arrivals))]
pub fn arrive(board: &mut Board, edges: &[Edge]) -> Result<u64, Refusal>
    ensures answers { done (arrival board.new result) ≡ arrive_of board.old edges.now }
    ensures err { OnErr result (board.new ≡ board.old) }
{
    if !board.is_sound() {
        return Err(Refusal::Spoilt);
    }
    let mut floors = Floors::of(&board.market, &board.state.price);
    arrive_in(board, &mut floors, edges)
}

// The same with the edges of a buffer.
pub fn arrive_buffer(board: &mut Board, buffer: &EdgeBuffer) -> Result<u64, Refusal>
    ensures answers { done (arrival board.new result) ≡ arrive_of board.old (buffer_edges buffer.now) }
    ensures err { OnErr result (board.new ≡ board.old) }
{
    arrive(board, edges_of(buffer).as_slice())
}
