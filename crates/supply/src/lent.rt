// The three lists that a caller lends, for a matching, prices and gains by item.
ghost use Rattle.std.specs.Prelude.{◌≡◌};
ghost use Rattle.refusals.specs.Demand1.{first_of};
ghost use Rattle.supply.specs.Lent.{lent_checks};

use crate::record::Board;
use board::lent::has_room;
use refusals::Refusal;

// "Read-out and exact 13, 8": the board, and the lengths of the lists that are lent.
#[tactic(auto, unfolding(refusals::specs::Demand1::first_of))]
pub fn lent_verdict(board: &Board, plan: usize, prices: usize, gains: usize) -> Result<(), Refusal>
    ensures { result ≡ first_of (lent_checks board.now plan prices gains) }
{
    if !board.is_sound() {
        return Err(Refusal::Spoilt);
    }
    if !has_room(
        board.market.arrived as usize,
        board.items.count as usize,
        plan,
        prices,
        gains,
    ) {
        return Err(Refusal::Short);
    }
    Ok(())
}
