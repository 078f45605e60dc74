// What begins chains of bids: a new bidder's row, or items that are released.
ghost use Rattle.std.specs.Prelude.{◌≡◌, List, ℕ, ◌+◌, ◌*◌, ◌≤◌, ◌<◌, length};
ghost use Rattle.std.proofs.lemmas.List.Edits.{sets};
ghost use Rattle.duality.specs.Lists.{cells};
ghost use Rattle.board.specs.Limits.{max_items, max_bidders};
ghost use Rattle.board.specs.Cells.{auction, scaled_at};
ghost use Rattle.board.specs.Sound.{Sound};
ghost use Rattle.bidding.specs.Rule.{done, after_chain};
ghost use Rattle.bidding.specs.Moves.{arrived_of};
ghost use Rattle.bidding.specs.Withdrawals.{Vacates, withdrawn_of};
ghost use Rattle.bidding.specs.WithdrawalLaws.{Listed};
ghost use Rattle.bidding.specs.Floors.{Floored};
ghost use Rattle.bidding.specs.Waiting.{RowFits};

use crate::chain::{settle, settle_all};
use crate::floors::Floors;
use board::record::{Auction, Holder, Market, State, holder_of};
use board::units::Scaled;

// A row, written among the weights from a cell on.
fn file_row(weights: &mut [u32; Auction::MAX_CELLS], from: usize, row: &[u32; Auction::MAX_ITEMS])
    requires { from + max_items ≤ max_bidders * max_items }
    ensures { weights.new ≡ sets weights.old from row.now }
{
    weights[from..from + Auction::MAX_ITEMS].copy_from_slice(row);
}

// The new bidder's row is filed, and the bidder bids. How many the bids were.
pub fn enter(
    market: &mut Market,
    weights: &mut [u32; Auction::MAX_CELLS],
    state: &mut State,
    floors: &mut Floors,
    row: &[u32; Auction::MAX_ITEMS],
) -> u64
    requires sound { Sound (auction market.old weights.old state.old) }
    requires room { market.old.arrived < max_bidders }
    requires row { RowFits market.old.items row.now }
    requires floored { Floored market.old (scaled_at state.old.price) floors.old }
    ensures arrived { done (after_chain (auction market.new weights.new state.new) result) ≡ arrived_of (auction market.old weights.old state.old) row.now }
    ensures floored { Floored market.new (scaled_at state.new.price) floors.new }
{
    let newcomer = market.arrived as usize;
    file_row(weights, newcomer * Auction::MAX_ITEMS, row);
    market.arrived += 1;
    let end = settle(market, weights, *state, floors, newcomer);
    *state = end.state;
    end.bids
}

// "All go first": the items leave the live edges, and whoever held one is unplaced and marked. Nobody bids. A mark for each bidder that held one.
fn vacate(market: &mut Market, state: &mut State, items: &[u64]) -> [bool; Auction::MAX_BIDDERS]
    requires { (w : List ℕ) × Sound (auction market.old w state.old) × Listed (auction market.old w state.old) (cells items.now) (length items.now) }
    ensures { (w : List ℕ) → Sound (auction market.old w state.old) →
        Vacates (auction market.old w state.old) (cells items.now) (length items.now) (auction market.new w state.new) result }
{
    let mut waiting = [false; Auction::MAX_BIDDERS];
    for item in items {
        let k = (*item - 1) as usize;
        let before = holder_of(state.holder[k]);
        state.price[k] = Scaled(0);
        state.holder[k] = 0;
        market.withdrawn[k] = 1;
        if let Holder::Held(bidder) = before {
            state.gain[bidder] = Scaled(0);
            waiting[bidder] = true;
        }
    }
    waiting
}

// All items of a list leave, and then those who held one bid, in rising number. Whatever the floors were, they are those of the prices at the end. How many the
// bids were.
pub fn release(
    market: &mut Market,
    weights: &[u32; Auction::MAX_CELLS],
    state: &mut State,
    floors: &mut Floors,
    items: &[u64],
) -> u64
    requires sound { Sound (auction market.old weights.now state.old) }
    requires listed { Listed (auction market.old weights.now state.old) (cells items.now) (length items.now) }
    ensures withdrawn { done (after_chain (auction market.new weights.now state.new) result) ≡
        withdrawn_of (auction market.old weights.now state.old) (cells items.now) (length items.now) }
    ensures floored { Floored market.new (scaled_at state.new.price) floors.new }
{
    let waiting = vacate(market, state, items);
    *floors = Floors::of(market, &state.price);
    settle_all(market, weights, state, floors, &waiting)
}
