// A bid, as the slides have it (source document 002, "Multiplicative Auction Algorithm"): "While ∃ v ∈ V unallocated, util(uv) > ε · w(uv), v bids
// y_u + ε · w(uv) and allocated max util u". Here v is the bidder, u an item, y_u its price, and ε the slack p/q; all in q-ths of a penny, so that
// util(uv) = w(uv) - y_u is q × w - y, and ε · w(uv) is p × w. A function for each step, in the order in which `settle` calls them: test open edges, pick,
// price, hand over. "While ∃ v ∈ V unallocated" is the loop of `settle`, and that of `settle_all`
// where a list of items was withdrawn. Since R-7 (document 02, "The bigger bid") the pick also answers the second utility: the gain becomes it, and the
// price rises by the lead over it besides.
ghost use Rattle.std.specs.Prelude.{◌≡◌, cond, None, List, ℕ, ◌+◌, ◌-◌, ◌*◌, ◌≤◌, ◌<◌, length, set, ltb};
ghost use Rattle.duality.specs.Lists.{cells};
ghost use Rattle.board.specs.Limits.{max_items, max_bidders, max_q, word_limit};
ghost use Rattle.board.specs.Cells.{holder_of, scaled, scaled_at};
ghost use Rattle.board.specs.Live.{live_in};
ghost use Rattle.board.specs.Lent.{written};
ghost use Rattle.bidding.specs.Floors.{floor_of, pence_of, Least, Weighs};
ghost use Rattle.bidding.specs.Rule.{beats, ranked, raised_to};
ghost use Rattle.bidding.specs.Slides.{test_open, take_of, pick_of, handed_to, gains_to};
ghost use Rattle.bidding.specs.Leader.{second_in, edge_of, LeaderFits, Rounds, Rated, Rates, rated_weight, rated_in};

use crate::floors::Floors;
use board::record::{Auction, Holder, holder_of};
use board::units::{Pence, Scaled, Slack, weight_in};

// The edge that is picked, with its utility and the greatest of any other open edge.
#[derive(Clone, Copy)]
pub struct Best {
    pub item: usize,
    pub weight: Pence,
    pub utility: Scaled,
    pub second: Scaled,
}

// What is left of a weight over the price in pence, where the weight is over the floor; 0 for any other.
fn above(weight: u32, floor: u32, pence: u32) -> u32
    requires { pence ≤ floor }
    ensures { result ≡ cond (ltb floor weight) weight 0 - pence }
{
    if weight <= floor {
        return 0;
    }
    weight - pence
}

// Step 1, test open edges (the documents' open entries). The slide: "util(uv) > ε · w(uv)". An edge of the row is live and open exactly where its weight is
// over its item's floor (floors.rt); it is rated at its utility in pence, rounded up, and any other at 0. The contract: whatever slack, prices and withdrawn
// items these are the floors of.
pub(crate) fn test_open<'a>(
    tested: &mut [u32; Auction::MAX_ITEMS],
    row: &'a [u32],
    floors: &'a Floors,
    items: usize,
)
    requires items { items ≤ max_items }
    requires row { length row.now ≡ max_items }
    requires under { (k : ℕ) → k < items → cells floors.now.pence k ≤ cells floors.now.least k }
    ensures { (p q : ℕ) (withdrawn : List ℕ) (y : ℕ → ℕ) → p < q → Weighs items row.now → Least p q withdrawn y items floors.now.least →
        tested.new ≡ written items (λ k. test_open p q (live_in row.now withdrawn) y k - cells floors.now.pence k) tested.old }
{
    for k in 0..items {
        tested[k] = above(row[k], floors.least[k], floors.pence[k]);
    }
}

// The best of the edges looked at. An edge whose utility is not above the bar is neither best nor second: the bar is the second utility less 1, and 0 while
// there is no second. Before the first open edge there is no weight, and the utility is 1, which no open edge has. `own` and `least` are the utility and the
// second in pence, rounded up, 1 while there is none: an edge that is rated at less than `least` is not above the bar.
// No Option for either: the definition `edge_of` reads these numbers, and with them an edge is held against the leader in one test.
#[derive(Clone, Copy)]
struct Leader {
    item: usize,
    weight: Pence,
    utility: Scaled,
    bar: Scaled,
    own: u32,
    least: u32,
    ghost fits: { LeaderFits weight.0 utility.0 bar.0 },
}

impl Leader {
    // No edge yet.
    fn none() -> Leader
        ensures nothing { edge_of result.item result.weight result.utility result.bar.0 ≡ None }
        ensures rounds { (q : ℕ) → Rounds q result.utility.0 result.bar.0 result.own result.least }
    {
        Leader {
            item: 0,
            weight: Pence(0),
            utility: Scaled(1),
            bar: Scaled(0),
            own: 1,
            least: 1,
        }
    }
}

// Whether an edge goes before the leader: its utility is greater, or equal and its weight is greater. Two tests by hand: as one comparison of pairs a chain
// takes 8 in 100 more instructions, and as one expression 5, over the 3 of docs/BENCHMARK.md.
fn goes_before(utility: Scaled, weight: Pence, leader: Leader) -> bool
    ensures { result ≡ beats utility.0 weight.0 leader.utility.0 leader.weight.0 }
{
    if leader.utility.0 < utility.0 {
        return true;
    }
    if utility.0 < leader.utility.0 {
        return false;
    }
    leader.weight.0 < weight.0
}

// The leader, after an edge whose utility is above the bar: the edge leads, and the leader's utility is the second; or its own is.
fn overtaken(leader: Leader, item: usize, weight: Pence, utility: Scaled, own: u32) -> Leader
    requires heavy { 0 < weight.0 }
    requires useful { 1 < utility.0 }
    requires small { utility.0 ≤ max_q * word_limit }
    requires above { leader.bar.0 < utility.0 }
    ensures ranked { edge_of result.item result.weight result.utility result.bar.0 ≡
        ranked item weight.0 utility.0 (edge_of leader.item leader.weight leader.utility leader.bar.0) }
    ensures rounds { (q : ℕ) → 0 < own → q * (own - 1) < utility.0 → Rounds q leader.utility.0 leader.bar.0 leader.own leader.least →
        Rounds q result.utility.0 result.bar.0 result.own result.least }
{
    if goes_before(utility, weight, leader) {
        return Leader {
            item,
            weight,
            utility,
            bar: Scaled(leader.utility.0 - 1),
            own,
            least: leader.own,
        };
    }
    Leader {
        item: leader.item,
        weight: leader.weight,
        utility: leader.utility,
        bar: Scaled(utility.0 - 1),
        own: leader.own,
        least: own,
    }
}

// The leader, after one more edge has been looked at.
// What `Rounds` says is of the slack too, which a leader has not, so that it is a clause.
fn offer(
    leader: Leader,
    item: usize,
    weight: Pence,
    price: Scaled,
    own: u32,
    slack: Slack,
) -> Leader
    requires slack { slack.q ≤ max_q }
    requires weight { weight.0 < word_limit }
    requires own { 0 < own }
    requires rated { Rated slack.q own weight.0 price.0 }
    requires rounds { Rounds slack.q leader.utility.0 leader.bar.0 leader.own leader.least }
    ensures rounds { Rounds slack.q result.utility.0 result.bar.0 result.own result.least }
    ensures taken { edge_of result.item result.weight result.utility result.bar.0 ≡
        take_of slack.q item weight.0 price.0 (edge_of leader.item leader.weight leader.utility leader.bar.0) }
{
    // q × w is at most y + bar: the utility q × w - y is not above the bar.
    if !slack.exceeds(weight, Scaled(price.0 + leader.bar.0)) {
        return leader;
    }
    let utility = slack.utility(weight, price);
    overtaken(leader, item, weight, utility, own)
}

// The second utility that a bar stands for.
fn second_in(bar: Scaled) -> Scaled
    requires { bar.0 ≤ max_q * word_limit }
    ensures { result.0 ≡ second_in bar.0 }
{
    if bar.0 == 0 {
        return Scaled(0);
    }
    Scaled(bar.0 + 1)
}

// The leader as an answer.
fn picked(leader: Leader) -> Option<Best>
    ensures { result ≡ edge_of leader.item leader.weight leader.utility leader.bar.0 }
{
    if leader.weight.0 == 0 {
        return None;
    }
    Some(Best {
        item: leader.item,
        weight: leader.weight,
        utility: leader.utility,
        second: second_in(leader.bar),
    })
}

// How many edges are looked at in a row, without asking whether there are more.
const BLOCK: usize = 8;

// A bidder's row with the rates that step 1 leaves of it, and what an edge is ranked by: the prices, these in whole pence too, and the slack.
#[derive(Clone, Copy)]
pub(crate) struct RatedRow<'a> {
    pub(crate) tested: &'a [u32; Auction::MAX_ITEMS],
    pub(crate) row: &'a [u32],
    pub(crate) prices: &'a [Scaled; Auction::MAX_ITEMS],
    pub(crate) pence: &'a [u32; Auction::MAX_ITEMS],
    pub(crate) slack: Slack,
    ghost whole: { length row.now ≡ max_items },
    ghost fine: { slack.q ≤ max_q },
    ghost rates: { (k : ℕ) → k < max_items → Rates slack.q (cells tested.now k) (cells row.now k) (scaled_at prices.now k) (cells pence.now k) },
}

impl<'a> RatedRow<'a> {
    // The leader, after the edge of cell k has been looked at: only where its rate says that it may be above the bar.
    fn look_at(&self, leader: Leader, k: usize) -> Leader
        requires item { k < max_items }
        requires rounds { Rounds self.now.slack.q leader.utility.0 leader.bar.0 leader.own leader.least }
        ensures rounds { Rounds self.now.slack.q result.utility.0 result.bar.0 result.own result.least }
        ensures taken { edge_of result.item result.weight result.utility result.bar.0 ≡
            take_of self.now.slack.q k (rated_weight (cells self.now.tested.now k) (cells self.now.row.now k)) (scaled_at self.now.prices.now k)
            (edge_of leader.item leader.weight leader.utility leader.bar.0) }
    {
        if self.tested[k] < leader.least {
            return leader;
        }
        let weight = self.row[k];
        let own = weight - self.pence[k];
        offer(
            leader,
            k,
            weight_in(weight),
            self.prices[k],
            own,
            self.slack,
        )
    }

    // The leader, after the edges of a block have been looked at.
    fn look_on(&self, start: Leader, from: usize) -> Leader
        requires block { from + 8 ≤ max_items }
        requires rounds { Rounds self.now.slack.q start.utility.0 start.bar.0 start.own start.least }
        requires best { edge_of start.item start.weight start.utility start.bar.0 ≡ pick_of self.now.slack.q (rated_in self.now.tested.now self.now.row.now) (scaled_at self.now.prices.now) from }
        ensures rounds { Rounds self.now.slack.q result.utility.0 result.bar.0 result.own result.least }
        ensures best { edge_of result.item result.weight result.utility result.bar.0 ≡
            pick_of self.now.slack.q (rated_in self.now.tested.now self.now.row.now) (scaled_at self.now.prices.now) (from + 8) }
    {
        let mut leader = start;
        for j in 0..BLOCK {
            leader = self.look_at(leader, from + j);
        }
        leader
    }

    // Step 2, pick. The slide: "max util u". Of the open edges that of greatest utility; of equal ones the heaviest, and of these that at the lowest item.
    // With it the greatest utility of any other open edge, 0 if there is none. Edges are looked at in blocks, past the items too, where every rate is 0.
    pub(crate) fn pick(&self, items: usize) -> Option<Best>
        requires items { items ≤ max_items }
        requires blank { (k : ℕ) → items ≤ k → cells self.now.tested.now k ≡ 0 }
        ensures { result ≡ pick_of self.now.slack.q (rated_in self.now.tested.now self.now.row.now) (scaled_at self.now.prices.now) items }
    {
        let mut leader = Leader::none();
        let mut block: usize = 0;
        // Counted by hand: the test says where the blocks end. A range would say their number, which has to be rounded up first.
        while block * BLOCK < items {
            leader = self.look_on(leader, block * BLOCK);
            block += 1;
        }
        picked(leader)
    }
}

// Step 3, price. The slide: "v bids y_u + ε · w(uv)", here with the lead besides, which becomes the price. The item's floor and its price
// in pence rise with it.
pub(crate) fn raise(
    prices: &mut [Scaled; Auction::MAX_ITEMS],
    floors: &mut Floors,
    item: usize,
    weight: Pence,
    lead: Scaled,
    slack: Slack,
)
    requires item { item < max_items }
    requires proper { slack.p < slack.q }
    requires slack { slack.q ≤ max_q }
    requires weight { weight.0 < word_limit }
    requires lead { lead.0 ≤ max_q * word_limit }
    requires price { scaled_at prices.old item ≤ max_q * word_limit }
    ensures price { prices.new ≡ set prices.old item (scaled (raised_to slack.p weight.0 lead.0 (scaled_at prices.old item))) }
    ensures least { floors.new.least ≡ set floors.old.least item (floor_of slack.p slack.q (raised_to slack.p weight.0 lead.0 (scaled_at prices.old item))) }
    ensures pence { floors.new.pence ≡ set floors.old.pence item (pence_of slack.q (raised_to slack.p weight.0 lead.0 (scaled_at prices.old item))) }
{
    let rise = lead.0 + slack.step(weight).0;
    let price = Scaled(prices[item].0 + rise);
    prices[item] = price;
    floors.raise(item, price, slack);
}

// Step 4, hand over. The slide: "and allocated". The bidder has the item, and its gain is the second utility; whoever had the item is unallocated, with
// gain 0.
pub(crate) fn hand_over(
    holders: &mut [u8; Auction::MAX_ITEMS],
    gains: &mut [Scaled; Auction::MAX_BIDDERS],
    item: usize,
    bidder: usize,
    second: Scaled,
) -> Holder
    requires item { item < max_items }
    requires bidder { bidder < max_bidders }
    requires holder { cells holders.old item ≤ max_bidders }
    ensures before { result ≡ holder_of (cells holders.old item) }
    ensures handed { holders.new ≡ handed_to holders.old item bidder }
    ensures gains { gains.new ≡ gains_to (scaled 0) gains.old bidder second (holder_of (cells holders.old item)) }
{
    let before = holder_of(holders[item]);
    holders[item] = (bidder + 1) as u8;
    gains[bidder] = second;
    if let Holder::Held(displaced) = before {
        gains[displaced] = Scaled(0);
    }
    before
}
