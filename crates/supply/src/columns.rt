// A matching, prices and gains by place, read by item.
ghost use Rattle.std.specs.Prelude.{◌≡◌, ℕ, suc, ◌+◌, ◌≤◌, ◌<◌, min, get_or};
ghost use Rattle.duality.specs.Lists.{cells};
ghost use Rattle.duality.specs.Matching.{at_cell};
ghost use Rattle.board.specs.Limits.{max_items, max_bidders};
ghost use Rattle.places.specs.Plan.{read_back};
ghost use Rattle.places.specs.Total.{least_of, least_price};
ghost use Rattle.supply.specs.Board.{places_in, all_places};
ghost use Rattle.supply.specs.Shape.{Belongs, Fits};
ghost use Rattle.supply.specs.Columns.{ReadByItem};

use crate::record::Items;
use crate::shape::{count_in, owners_of};
use board::lent::Columns;
use board::record::Auction;

// A place's number, as its item's number; 0 for none.
// Like page's `weight_held` and matching's `cell_weight` it is `at_cell`, each of a lookup of its own: the test for 0 is all they share.
fn item_number(owner: &[u32; Auction::MAX_ITEMS], cell: u64) -> u64
    requires { cell ≤ max_items }
    ensures { result ≡ at_cell (λ s. suc (get_or owner.now s 0)) cell }
{
    if cell == 0 {
        return 0;
    }
    let s = (cell - 1) as usize;
    u64::from(owner[s]) + 1
}

// The matching by item.
fn plan_by_item<'a>(
    owner: &'a [u32; Auction::MAX_ITEMS],
    plan: &'a [u64; Auction::MAX_BIDDERS],
    bidders: usize,
) -> [u64; Auction::MAX_BIDDERS]
    requires bidders { bidders ≤ max_bidders }
    requires plan { (i : ℕ) → i < bidders → cells plan.now i ≤ max_items }
    ensures { (i : ℕ) → i < bidders → cells result i ≡ at_cell (λ s. suc (get_or owner.now s 0)) (cells plan.now i) }
{
    let mut named = [0u64; Auction::MAX_BIDDERS];
    for i in 0..bidders {
        named[i] = item_number(owner, plan[i]);
    }
    named
}

// The least of the prices of so many places, from one on.
fn least_price(prices: &[u64; Auction::MAX_BIDDERS], from: usize, places: usize) -> u64
    requires from { from ≤ max_items }
    requires places { from + places ≤ max_bidders }
    ensures { result ≡ least_of (cells prices.now from) places (λ j. cells prices.now (from + j)) }
{
    let mut least = prices[from];
    for &price in &prices[from..from + places] {
        least = least.min(price);
    }
    least
}

// The least price of each item.
fn prices_by_item(prices: &[u64; Auction::MAX_BIDDERS], items: Items) -> [u64; Auction::MAX_BIDDERS]
    requires { Fits items }
    ensures { (k : ℕ) → k < items.count → cells result k ≡ least_price (places_in items) (cells prices.now) k }
{
    let count = items.count as usize;
    let mut least = [0u64; Auction::MAX_BIDDERS];
    let mut next: usize = 0;
    for k in 0..count {
        let places = count_in(items.places[k]);
        least[k] = least_price(prices, next, places);
        next += places;
    }
    least
}

// All three by item, of so many bidders.
pub fn read_by_item(columns: Columns, items: Items, bidders: usize) -> Columns
    requires fits { Fits items }
    requires bidders { bidders ≤ max_bidders }
    requires plan { (i : ℕ) → i < bidders → cells columns.plan i ≤ all_places items }
    ensures { ReadByItem items bidders columns result }
{
    let owner = owners_of(items);
    Columns {
        plan: plan_by_item(&owner, &columns.plan, bidders),
        prices: prices_by_item(&columns.prices, items),
        gains: columns.gains,
    }
}
