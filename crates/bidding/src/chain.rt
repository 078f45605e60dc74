// The chain of bids that a bidder begins, and the chains of several, one after the other.
ghost use Rattle.std.specs.Prelude.{◌≡◌, true};
ghost use Rattle.board.specs.Cells.{auction, scaled_at};
ghost use Rattle.bidding.specs.Rule.{after_chain, settle_of, fuel_of, done};
ghost use Rattle.bidding.specs.Floors.{Floored};
ghost use Rattle.bidding.specs.Waiting.{SoundBut, Ready};
ghost use Rattle.bidding.specs.Withdrawals.{marked, roll_of, chains_from};

use crate::floors::Floors;
use crate::rule::{Best, RatedRow, hand_over, raise, test_open};
use board::record::{Auction, Holder, Market, State};
use board::units::Scaled;

// The state after a chain of bids, and how many the bids were.
#[derive(Clone, Copy)]
pub struct ChainEnd {
    pub state: State,
    pub bids: u64,
}

// The chain of bids that a bidder begins. The slide: "While ∃ v ∈ V unallocated". Its four steps in turn (rule.rt), until an item was free or nothing is
// open. The floors are lent: they are those of the board before and after (`Floored`, asked here and of what calls it, since market and
// prices lie in the board). Market and weights are lent as they lie in the board's record, whose layout is C's, and the state is its third part; the three
// stay three. The state is handed over and comes back settled, with the count of the bids: document 01 asks for this of the chain's end.
pub fn settle(
    market: &Market,
    weights: &[u32; Auction::MAX_CELLS],
    mut state: State,
    floors: &mut Floors,
    bidder: usize,
) -> ChainEnd
    requires ready { Ready (auction market.now weights.now state) bidder }
    requires floored { Floored market.now (scaled_at state.price) floors.old }
    ensures chain { done (after_chain (auction market.now weights.now result.state) result.bids) ≡
        settle_of (fuel_of (auction market.now weights.now state)) (auction market.now weights.now state) bidder 0 }
    ensures floored { Floored market.now (scaled_at result.state.price) floors.new }
{
    let items = market.items as usize;
    let slack = market.slack;
    let mut tested = [0u32; Auction::MAX_ITEMS];
    let mut next = bidder;
    let mut bids: u64 = 0;
    loop {
        let from = next * Auction::MAX_ITEMS;
        let row = &weights[from..from + Auction::MAX_ITEMS];
        test_open(&mut tested, row, floors, items);
        let rated = RatedRow {
            tested: &tested,
            row,
            prices: &state.price,
            pence: &floors.pence,
            slack,
        };
        let best = rated.pick(items);
        let Some(
            Best {
                item,
                weight,
                utility,
                second,
            },
        ) = best
        else {
            return ChainEnd { state, bids };
        };
        let lead = Scaled(utility.0 - second.0);
        raise(&mut state.price, floors, item, weight, lead, slack);
        let holder = hand_over(&mut state.holder, &mut state.gain, item, next, second);
        bids += 1;
        // The form of document 01, and so Holder has words of its own in place of an Option's.
        let Holder::Held(displaced) = holder else {
            return ChainEnd { state, bids };
        };
        next = displaced;
    }
}

// The chains of the marked bidders, in rising number, each run to its end before the next.
pub(crate) fn settle_all(
    market: &Market,
    weights: &[u32; Auction::MAX_CELLS],
    state: &mut State,
    floors: &mut Floors,
    waiting: &[bool; Auction::MAX_BIDDERS],
) -> u64
    requires waiting { SoundBut (λ h. marked waiting.now h ≡ true) (auction market.now weights.now state.old) }
    requires floored { Floored market.now (scaled_at state.old.price) floors.old }
    ensures chains { done (after_chain (auction market.now weights.now state.new) result) ≡
        chains_from (done (after_chain (auction market.now weights.now state.old) 0)) (roll_of (marked waiting.now) market.now.arrived) }
    ensures floored { Floored market.now (scaled_at state.new.price) floors.new }
{
    let mut bids: u64 = 0;
    for i in 0..market.arrived as usize {
        if waiting[i] {
            let end = settle(market, weights, *state, floors, i);
            *state = end.state;
            bids += end.bids;
        }
    }
    bids
}
