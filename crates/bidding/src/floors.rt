// The floor of an item: the greatest weight whose edge is not open at its price. The slide's util(uv) > ε · w(uv) is q × w - y > p × w, which is
// (q - p) × w > y, and so w > y / (q - p). A bid moves one price, and a row has 64 weights: so rows are tested against floors, without a product.
// Beside it the price in whole pence, y / q: what is left of a weight over it is the utility in pence, rounded up.
ghost use Rattle.std.specs.Prelude.{◌≡◌, cond, ◌≤◌, ◌<◌, min, set};
ghost use Rattle.board.specs.Limits.{max_items, max_weight};
ghost use Rattle.board.specs.Cells.{scaled_at};
ghost use Rattle.bidding.specs.Floors.{floor_of, pence_of, Floored};

use board::record::{Auction, Market};
use board::units::{Pence, Scaled, Slack};

// A weight, but no more than MAX_WEIGHT: none is over that, so neither a floor nor a price in pence needs to be.
// By `as`, here and where a number is narrowed: the contract has the bound, and `TryFrom` would answer an error that cannot be.
fn capped(weight: Pence) -> u32
    ensures { result ≡ min weight.0 max_weight }
{
    weight.0.min(Auction::MAX_WEIGHT) as u32
}

// The floor at a price.
pub(crate) fn floor_of(price: Scaled, slack: Slack) -> u32
    requires { slack.p < slack.q }
    ensures { result ≡ floor_of slack.p slack.q price.0 }
{
    capped(slack.floor(price))
}

// The floor of an item. No edge at one that is withdrawn is live, and none is open.
fn floor_at(price: Scaled, withdrawn: bool, slack: Slack) -> u32
    requires { slack.p < slack.q }
    ensures { result ≡ cond withdrawn max_weight (floor_of slack.p slack.q price.0) }
{
    if withdrawn {
        return Auction::MAX_WEIGHT as u32;
    }
    floor_of(price, slack)
}

// The price in whole pence, where that is not over MAX_WEIGHT.
pub(crate) fn pence_of(price: Scaled, slack: Slack) -> u32
    requires { slack.p < slack.q }
    ensures { result ≡ pence_of slack.q price.0 }
{
    capped(slack.pence(price))
}

// The floors of the items, and their prices in whole pence. Two lists, since the definitions `Least` and `InPence` are each of one, and a pick is lent the
// second alone.
#[derive(Clone, Copy)]
pub struct Floors {
    pub least: [u32; Auction::MAX_ITEMS],
    pub pence: [u32; Auction::MAX_ITEMS],
}

impl Floors {
    // Those of a market's items at their prices.
    pub fn of(market: &Market, price: &[Scaled; Auction::MAX_ITEMS]) -> Self
        requires items { market.now.items ≤ max_items }
        requires slack { market.now.slack.p < market.now.slack.q }
        ensures { Floored market.now (scaled_at price.now) result }
    {
        let slack = market.slack;
        let mut least = [0u32; Auction::MAX_ITEMS];
        let mut pence = [0u32; Auction::MAX_ITEMS];
        for k in 0..market.items as usize {
            least[k] = floor_at(price[k], market.withdrawn[k] != 0, slack);
            pence[k] = pence_of(price[k], slack);
        }
        Floors { least, pence }
    }

    // The price of an item is now another, above the one before.
    pub(crate) fn raise(&mut self, item: usize, price: Scaled, slack: Slack)
        requires item { item < max_items }
        requires slack { slack.p < slack.q }
        ensures least { self.new.least ≡ set self.old.least item (floor_of slack.p slack.q price.0) }
        ensures pence { self.new.pence ≡ set self.old.pence item (pence_of slack.q price.0) }
    {
        self.least[item] = floor_of(price, slack);
        self.pence[item] = pence_of(price, slack);
    }
}
