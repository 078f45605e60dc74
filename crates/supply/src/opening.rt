// Open: a board on which nothing has happened.
ghost use Rattle.std.specs.Prelude.{◌≡◌, [], ◌*◌, ◌≤◌, length};
ghost use Rattle.duality.specs.Lists.{cells};
ghost use Rattle.duality.specs.Sums.{sum_to};
ghost use Rattle.refusals.specs.Demand1.{first_of};
ghost use Rattle.board.specs.Limits.{max_items};
ghost use Rattle.supply.specs.Board.{max_places};
ghost use Rattle.supply.specs.Opening.{Counts, items_of, opened, count_checks, open_checks, open_of, answered};

use crate::record::{Board, Items};
use board::opening::empty;
use board::ranges::{is_slack, is_within};
use board::record::Auction;
use board::units::Slack;
use refusals::Refusal;

// Refusal 16 at an item: the first whose count is not 1 to 8.
// The same loop tells the first refusal of a plan, of prices, of gains and of a cover (matching, certificate): as one function it takes test and refusal as
// closures, whose contracts are longer than the loop.
fn counts_verdict(counts: &[u64]) -> Result<(), Refusal>
    ensures { result ≡ first_of (count_checks counts.now) }
{
    for (k, &count) in counts.iter().enumerate() {
        if !is_within(Board::MAX_PLACES, count) {
            return Err(Refusal::Places(k as u64 + 1));
        }
    }
    Ok(())
}

// All counts added.
fn sum_of(counts: &[u64]) -> u64
    requires { Counts counts.now }
    ensures sum { result ≡ sum_to (length counts.now) (cells counts.now) }
    ensures small { result ≤ max_items * max_places }
{
    board::lent::sum(counts, counts.len())
}

// The counts, kept.
fn items_of(counts: &[u64]) -> Items
    requires { Counts counts.now }
    ensures { result ≡ items_of counts.now }
{
    let mut places = [0; Auction::MAX_ITEMS];
    for (k, &count) in counts.iter().enumerate() {
        places[k] = count as u8;
    }
    Items {
        count: counts.len() as u64,
        places,
    }
}

// "open 1, 2", then "9 for counts of another length, then 16".
#[tactic(auto, using(refusals::proofs::Verdicts::first_on, refusals::proofs::Verdicts::first_stops, refusals::proofs::Verdicts::refused_up), unfolding(crate::specs::Opening::open_checks, refusals::specs::Demand1::first_of))]
pub fn open_verdict(items: u64, p: u64, q: u64, counts: &[u64]) -> Result<(), Refusal>
    ensures { result ≡ first_of (open_checks items p q counts.now) }
{
    if !is_within(Auction::MAX_ITEMS as u64, items) {
        return Err(Refusal::Count);
    }
    if !is_slack(1, p, q) {
        return Err(Refusal::Slack);
    }
    if counts.len() != items as usize {
        return Err(Refusal::Uneven);
    }
    counts_verdict(counts)?;
    if sum_of(counts) > Auction::MAX_ITEMS as u64 {
        return Err(Refusal::Places(0));
    }
    Ok(())
}

// A board on which nothing has happened. `Counts` is a clause, here and above: the counts are a caller's list.
pub fn empty_board(p: u64, q: u64, counts: &[u64]) -> Board
    requires { Counts counts.now }
    ensures { result ≡ opened p q counts.now }
{
    let items = items_of(counts);
    let auction = empty(sum_of(counts), p, q);
    let market = auction.market;
    let state = auction.state;
    Board {
        items,
        market,
        state,
        weights: [0; Auction::MAX_CELLS],
    }
}

// The same, where there was a board that is all 0: only what is not 0 is written.
pub fn open_blank(board: &mut Board, p: u64, q: u64, counts: &[u64])
    requires counts { Counts counts.now }
    requires blank { board.old ≡ opened 0 0 [] }
    ensures { board.new ≡ opened p q counts.now }
{
    board.items = items_of(counts);
    board.market.items = sum_of(counts);
    board.market.slack = Slack { p, q };
}

impl Board {
    /// Opens a board of so many items with slack p/q, and as many places for each as the counts say.
    #[tactic(auto, using(refusals::proofs::Verdicts::refused_up), unfolding(crate::specs::Opening::open_of, crate::specs::Opening::open_by))]
    pub fn open(items: u64, p: u64, q: u64, counts: &[u64]) -> Result<Self, Refusal>
        ensures { answered result ≡ open_of items p q counts.now }
    {
        open_verdict(items, p, q, counts)?;
        Ok(empty_board(p, q, counts))
    }
}
