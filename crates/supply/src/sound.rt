// The test that a board is sound: its items and their places, the auction over places, and that the places of an item are alike.
ghost use Rattle.std.specs.Prelude.{◌≡◌, ◌↔◌, IsTrue, ◌&&◌, ℕ, ◌*◌, ◌≤◌, ◌<◌, length, get_or, eqb};
ghost use Rattle.duality.specs.Decide.{all_below};
ghost use Rattle.board.specs.Limits.{max_items, max_bidders};
ghost use Rattle.board.specs.Cells.{row_in};
ghost use Rattle.supply.specs.Sound.{Laid, Sound};
ghost use Rattle.supply.specs.SoundTest.{count_test, counts_test, laid_test, column_test, alike_test, sound_test};

use crate::record::{Board, Items};
use crate::shape::{owners_of, places_to, starts_of};
use board::ranges::is_within;
use board::record::Auction;

// The places of an item: 1 to 8, and 0 past the count.
#[tactic(auto, unfolding(crate::specs::SoundTest::count_test))]
fn count_holds(used: bool, places: u8) -> bool
    ensures { result ≡ count_test used places }
{
    if used {
        return is_within(Board::MAX_PLACES, u64::from(places));
    }
    places == 0
}

fn counts_hold(items: Items) -> bool
    requires { items.count ≤ max_items }
    ensures { result ≡ counts_test items }
{
    let count = items.count as usize;
    items
        .places
        .iter()
        .enumerate()
        .all(|(k, places)| count_holds(k < count, *places))
}

// The items and their places, of so many places in all.
#[tactic(auto, unfolding(crate::specs::SoundTest::laid_test))]
fn is_laid(items: Items, places: u64) -> bool
    ensures { result ≡ laid_test items places }
{
    if !is_within(Auction::MAX_ITEMS as u64, items.count) {
        return false;
    }
    if !counts_hold(items) {
        return false;
    }
    places_to(&items.places, items.count as usize) as u64 == places
}

// Whether two places have the same edges.
fn column_alike(weights: &[u32; Auction::MAX_CELLS], s: usize, t: usize, arrived: usize) -> bool
    requires s { s < max_items }
    requires t { t < max_items }
    requires arrived { arrived ≤ max_bidders }
    ensures { result ≡ all_below arrived (λ i. eqb (get_or (row_in weights.now i) s 0) (get_or (row_in weights.now i) t 0)) }
{
    for i in 0..arrived {
        if weights[i * Auction::MAX_ITEMS + s] != weights[i * Auction::MAX_ITEMS + t] {
            return false;
        }
    }
    true
}

// Whether a place is as another: withdrawn or not, and its edges.
fn place_alike<'a>(
    weights: &'a [u32; Auction::MAX_CELLS],
    withdrawn: &'a [u8; Auction::MAX_ITEMS],
    s: usize,
    t: usize,
    arrived: usize,
) -> bool
    requires s { s < max_items }
    requires t { t < max_items }
    requires arrived { arrived ≤ max_bidders }
    ensures { result ≡ (eqb (get_or withdrawn.now s 0) (get_or withdrawn.now t 0) &&
        all_below arrived (λ i. eqb (get_or (row_in weights.now i) s 0) (get_or (row_in weights.now i) t 0))) }
{
    if s == t {
        return true;
    }
    if withdrawn[s] != withdrawn[t] {
        return false;
    }
    column_alike(weights, s, t, arrived)
}

// Every place is as the first place of its item.
fn places_alike(board: &Board) -> bool
    requires laid { Laid board.now.items board.now.market.items }
    requires items { board.now.market.items ≤ max_items }
    requires arrived { board.now.market.arrived ≤ max_bidders }
    ensures { result ≡ all_below board.now.market.items (alike_test board.now) }
{
    let starts = starts_of(board.items);
    let owner = owners_of(board.items);
    let arrived = board.market.arrived as usize;
    for s in 0..board.market.items as usize {
        let first = starts[owner[s] as usize];
        if !place_alike(&board.weights, &board.market.withdrawn, s, first, arrived) {
            return false;
        }
    }
    true
}

// The test of a board, part by part.
#[tactic(auto, unfolding(crate::specs::SoundTest::sound_test))]
fn passes(board: &Board) -> bool
    ensures { result ≡ sound_test board.now }
{
    if !is_laid(board.items, board.market.items) {
        return false;
    }
    if !board::sound::is_sound_in(board.market, &board.weights, board.state) {
        return false;
    }
    places_alike(board)
}

impl Board {
    /// Whether a board is sound, whatever numbers it holds.
    pub fn is_sound(&self) -> bool
        ensures test { result ≡ sound_test self.now }
        ensures sound { IsTrue result ↔ Sound self.now }
    {
        passes(self)
    }
}
