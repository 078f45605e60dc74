// Withdraw: items leave the live edges, and then those who held one bid.
ghost use Rattle.std.specs.Prelude.{◌≡◌, OnErr};
ghost use Rattle.supply.specs.Sound.{Sound};
ghost use Rattle.board.specs.Cells.{scaled_at};
ghost use Rattle.bidding.specs.Rule.{done};
ghost use Rattle.bidding.specs.Floors.{Floored};
ghost use Rattle.auction.specs.Withdraw.{withdrawal, withdraw_of};

use crate::items::items_verdict;
use bidding::floors::Floors;
use bidding::moves::release;
use matching::live::LiveSheet;
use refusals::Refusal;
use supply::record::Board;
use supply::shape::starts_of;
use supply::spread::spread_items;

// The withdrawal from a sound board, whose floors are lent with it: all places of the items. The number of bids made, or the refusal. `Live` has the same
// with nothing asked.
pub fn withdraw_in(board: &mut Board, floors: &mut Floors, items: &[u64]) -> Result<u64, Refusal>
    requires sound { Sound board.old }
    requires floored { Floored board.old.market (scaled_at board.old.state.price) floors.old }
    ensures answers { done (withdrawal board.new result) ≡ withdraw_of board.old items.now }
    ensures err { OnErr result (board.new ≡ board.old) }
    ensures floored { Floored board.new.market (scaled_at board.new.state.price) floors.new }
{
    let starts = starts_of(board.items);
    items_verdict(&LiveSheet::new(board, starts), items)?;
    let places = spread_items(board.items, &starts, items);
    let bids = release(
        &mut board.market,
        &board.weights,
        &mut board.state,
        floors,
        &places.numbers[..places.count],
    );
    Ok(bids)
}

// The items of a slice of any length are withdrawn, and then those who held one of their places bid.
#[tactic(auto, using(crate::proofs::Sounding::withdrawals))]
pub fn withdraw(board: &mut Board, items: &[u64]) -> Result<u64, Refusal>
    ensures answers { done (withdrawal board.new result) ≡ withdraw_of board.old items.now }
    ensures err { OnErr result (board.new ≡ board.old) }
{
    if !board.is_sound() {
        return Err(Refusal::Spoilt);
    }
    let mut floors = Floors::of(&board.market, &board.state.price);
    withdraw_in(board, &mut floors, items)
}
