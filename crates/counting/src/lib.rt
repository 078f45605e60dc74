#![tactic(auto)]

// The slow count (document 02, R-9), which planners can follow by hand: of few bidders and few places, every plan is tried.
mod limits;
mod rows; // live edges and free places, as the count is lent them
mod trying; // the count itself

ghost use Rattle.std.specs.Prelude.{◌≡◌, false, ◌≤◌};
ghost use Rattle.counting.specs.Limits.{max_counted};
ghost use Rattle.counting.specs.Call.{large_test, count_of};

use crate::limits::COUNTED;
use crate::rows::{free_of, rows_of};
use crate::trying::greatest_weight;
use board::units::Pence;
use matching::live::LiveSheet;
use refusals::Refusal;
use supply::record::Board;

// Over 6 bidders, or over 6 places.
#[tactic(auto, unfolding(crate::specs::Call::large_test))]
fn is_large(bidders: u64, places: u64) -> bool
    ensures test { result ≡ large_test bidders places }
    ensures bidders { result ≡ false → bidders ≤ max_counted }
    ensures places { result ≡ false → places ≤ max_counted }
{
    bidders > COUNTED as u64 || places > COUNTED as u64
}

/// Counts the greatest weight of a plan on a board's live edges.
#[tactic(auto, unfolding(crate::specs::Call::count_of, crate::specs::Call::count_by, refusals::specs::Demand1::first_of))]
pub fn count(board: &Board) -> Result<Pence, Refusal>
    ensures { result ≡ count_of board.now }
{
    if !board.is_sound() {
        return Err(Refusal::Spoilt);
    }
    let bidders = board.market.arrived;
    if is_large(bidders, board.market.items) {
        return Err(Refusal::Large);
    }
    let rows = rows_of(&LiveSheet::of(board));
    let free = free_of(&board.items);
    Ok(greatest_weight(bidders as usize, board.items.count as usize, &rows, free))
}
