// The solver: bidders are inserted one at a time, and what is settled at the end has equal totals. That the weights are light is asked of each function:
// they are lent as they lie in a board, whose array holds any numbers, and no struct stands between.
ghost use Rattle.std.specs.Prelude.{◌≡◌, ℕ, ◌+◌, ◌<◌, ◌≤◌, length};
ghost use Rattle.duality.specs.Lists.{cells};
ghost use Rattle.board.specs.Limits.{max_bidders, word_limit};
ghost use Rattle.hungarian.specs.Weights.{Light};
ghost use Rattle.hungarian.specs.Settled.{SettledIn, SettledBy};
ghost use Rattle.hungarian.specs.Insertion.{AdjustableIn, AdjustedIn};
ghost use Rattle.hungarian.specs.Solved.{SolvedBy};

use crate::limits::{BIDDERS, ITEMS, MAX_WEIGHT, WEIGHTS};
use crate::search::bidder_step;
use crate::tree::{Cover, Search};
use board::lent::{Columns, matching_of, sum};
use board::units::Pence;

// Prices, gains, and the number of the bidder that holds each item, 0 where nobody does, as in the record that C shares.
#[derive(Clone, Copy)]
pub(crate) struct Assignment {
    pub price: [u32; ITEMS],
    pub gain: [u32; BIDDERS],
    pub holder: [u8; ITEMS],
}

// What the search put off: since its visit each visited item's price has risen, and its holder's gain fallen, by as much as the fall has grown.
// The holders are those before the search, and the root's gain is left.
fn adjust(
    price: &mut [u32; ITEMS],
    gain: &mut [u32; BIDDERS],
    holders: &[u8; ITEMS],
    search: &Search,
)
    requires { AdjustableIn price.old gain.old holders.now search.now.visited search.now.edges.excess search.now.front.fall }
    ensures { AdjustedIn price.old gain.old holders.now search.now.visited search.now.edges.excess search.now.front.fall
        price.new gain.new }
{
    for k in 0..ITEMS {
        if search.visited[k] != 0 {
            let change = search.front.fall - search.edges.excess[k];
            let i = usize::from(holders[k]) - 1;
            price[k] += change;
            gain[i] -= change;
        }
    }
}

// One more bidder is settled. It comes with a gain that covers any edge, which falls till the bidder is placed or of gain 0.
fn insert(weights: &[u32; WEIGHTS], settled: &mut Assignment, bidder: usize)
    requires light { Light weights.now }
    requires bidder { bidder < max_bidders }
    requires settled { SettledIn weights.now settled.old.price settled.old.gain settled.old.holder bidder }
    ensures { SettledIn weights.now settled.new.price settled.new.gain settled.new.holder (bidder + 1) }
{
    settled.gain[bidder] = MAX_WEIGHT;
    let mut search = Search::rooted(settled.holder, bidder as u8);
    let cover = Cover {
        weights,
        price: &settled.price,
        gain: &settled.gain,
    };
    bidder_step(&cover, &mut search, bidder);
    adjust(
        &mut settled.price,
        &mut settled.gain,
        &settled.holder,
        &search,
    );
    settled.gain[bidder] -= search.front.fall;
    settled.holder = search.holders;
}

// The first n bidders settled.
fn settle(weights: &[u32; WEIGHTS], n: usize) -> Assignment
    requires light { Light weights.now }
    requires few { n ≤ max_bidders }
    ensures { SettledBy weights.now result n }
{
    let mut settled = Assignment {
        price: [0; ITEMS],
        gain: [0; BIDDERS],
        holder: [0; ITEMS],
    };
    for i in 0..n {
        insert(weights, &mut settled, i);
    }
    settled
}

// Numbers of 32 bits as the caller's lists have them.
// Beside board's `numbers_of`, of another type: its callers need the bound.
fn wide(numbers: &[u32]) -> [u64; BIDDERS]
    requires { length numbers.now ≤ max_bidders }
    ensures cells { cells result ≡ cells numbers.now }
    ensures small { (i : ℕ) → cells result i < word_limit }
{
    let mut list = [0; BIDDERS];
    for (i, &number) in numbers.iter().enumerate() {
        list[i] = u64::from(number);
    }
    list
}

// A matching of greatest weight, prices and gains in pence that cover every edge, and the weight, which is their sum.
#[derive(Clone, Copy)]
pub(crate) struct Solution {
    pub columns: Columns,
    pub weight: Pence,
}

// The weight of bidder and item is at bidder * ITEMS + item, 0 where there is no edge; only the first so many bidders count.
pub(crate) fn solve(weights: &[u32; WEIGHTS], bidders: usize) -> Solution
    requires light { Light weights.now }
    requires few { bidders ≤ max_bidders }
    ensures { SolvedBy bidders weights.now result.columns result.weight.0 }
{
    let settled = settle(weights, bidders);
    let prices = wide(&settled.price);
    let gains = wide(&settled.gain);
    let weight = Pence(sum(&prices, ITEMS) + sum(&gains, bidders));
    let columns = Columns {
        plan: matching_of(settled.holder, ITEMS),
        prices,
        gains,
    };
    Solution { columns, weight }
}
