// A board on which nothing has happened.
ghost use Rattle.std.specs.Prelude.{◌≡◌};
ghost use Rattle.board.specs.Opening.{opened};

use crate::record::{Auction, Market, State};
use crate::units::{Scaled, Slack};

// So many items, nothing arrived.
#[tactic(auto, unfolding(crate::specs::Opening::opened))]
pub fn empty(items: u64, p: u64, q: u64) -> Auction
    ensures { result ≡ opened items p q }
{
    let market = Market {
        items,
        slack: Slack { p, q },
        arrived: 0,
        withdrawn: [0; Auction::MAX_ITEMS],
    };
    let state = State {
        price: [Scaled(0); Auction::MAX_ITEMS],
        holder: [0; Auction::MAX_ITEMS],
        gain: [Scaled(0); Auction::MAX_BIDDERS],
    };
    Auction {
        market,
        state,
        weights: [0; Auction::MAX_CELLS],
    }
}
