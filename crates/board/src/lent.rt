// The three lists that a caller lends, for a matching, prices and gains; and the same as plain numbers.
ghost use Rattle.std.specs.Prelude.{◌≡◌, ℕ, ◌≤◌, ◌<◌, ◌^◌, length};
ghost use Rattle.duality.specs.Lists.{cells};
ghost use Rattle.duality.specs.Sums.{sum_to};
ghost use Rattle.board.specs.Limits.{max_items, max_bidders};
ghost use Rattle.board.specs.Cells.{scaled_at};
ghost use Rattle.board.specs.Lent.{room_test, Matched, ColumnsOf, written, written_lists, lists};

use crate::record::{Auction, State};
use crate::units::Scaled;

// A matching, prices and gains as a caller's lists have them: a cell for each bidder, item and bidder. Three arrays side by side, since callers of C
// lend three lists.
#[derive(Clone, Copy)]
pub struct Columns {
    pub plan: [u64; Auction::MAX_BIDDERS],
    pub prices: [u64; Auction::MAX_BIDDERS],
    pub gains: [u64; Auction::MAX_BIDDERS],
}

// Whether three lists have a cell for each bidder, item and bidder.
#[tactic(auto, unfolding(crate::specs::Lent::room_test))]
pub fn has_room(bidders: usize, items: usize, plan: usize, prices: usize, gains: usize) -> bool
    ensures { result ≡ room_test bidders items plan prices gains }
{
    bidders <= plan && items <= prices && bidders <= gains
}

// The matching: for each bidder the number of its item, or 0.
pub fn matching_of(holder: [u8; Auction::MAX_ITEMS], items: usize) -> [u64; Auction::MAX_BIDDERS]
    requires items { items ≤ max_items }
    requires holders { (k : ℕ) → k < items → cells holder k ≤ max_bidders }
    ensures { Matched holder items result }
{
    let mut matching = [0u64; Auction::MAX_BIDDERS];
    for (k, &held) in holder[..items].iter().enumerate() {
        if held != 0 {
            matching[usize::from(held) - 1] = k as u64 + 1;
        }
    }
    matching
}

// Prices or gains as plain numbers, and 0 past them.
// The solver's `wide` does so with numbers of 32 bits, whose bound it promises: one for both says no less.
fn numbers_of(units: &[Scaled]) -> [u64; Auction::MAX_BIDDERS]
    requires { length units.now ≤ max_bidders }
    ensures { (k : ℕ) → k < length units.now → cells result k ≡ scaled_at units.now k }
{
    let mut numbers = [0u64; Auction::MAX_BIDDERS];
    for (k, unit) in units.iter().enumerate() {
        numbers[k] = unit.0;
    }
    numbers
}

// A state as plain numbers.
pub fn columns_of(state: State, items: usize) -> Columns
    requires items { items ≤ max_items }
    requires holders { (k : ℕ) → k < items → cells state.holder k ≤ max_bidders }
    ensures { ColumnsOf state items result }
{
    Columns {
        plan: matching_of(state.holder, items),
        prices: numbers_of(&state.price),
        gains: numbers_of(&state.gain),
    }
}

// The first n numbers, into a lent list.
fn write(numbers: &[u64; Auction::MAX_BIDDERS], n: usize, out: &mut [u64])
    requires numbers { n ≤ max_bidders }
    requires out { n ≤ length out.old }
    ensures { out.new ≡ written n (cells numbers.now) out.old }
{
    out[..n].copy_from_slice(&numbers[..n]);
}

// The three lists, written. They come one by one, as callers of C lend them.
pub fn write_columns(
    columns: Columns,
    bidders: usize,
    items: usize,
    plan: &mut [u64],
    prices: &mut [u64],
    gains: &mut [u64],
)
    requires bidders { bidders ≤ max_bidders }
    requires items { items ≤ max_bidders }
    requires plan { bidders ≤ length plan.old }
    requires prices { items ≤ length prices.old }
    requires gains { bidders ≤ length gains.old }
    ensures { lists plan.new prices.new gains.new ≡ written_lists bidders items columns (lists plan.old prices.old gains.old) }
{
    write(&columns.plan, bidders, plan);
    write(&columns.prices, items, prices);
    write(&columns.gains, bidders, gains);
}

// The sum of the first n numbers. A list and a number: docs name it so.
pub fn sum(numbers: &[u64], n: usize) -> u64
    requires part { n ≤ length numbers.now }
    requires small { sum_to n (cells numbers.now) < 2 ^ 64 }
    ensures { result ≡ sum_to n (cells numbers.now) }
{
    numbers[..n].iter().sum()
}
