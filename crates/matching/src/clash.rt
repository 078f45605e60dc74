// Refusal 10: the cells of a matching that was made elsewhere.
ghost use Rattle.std.specs.Prelude.{◌≡◌, ℕ, IsTrue, OnOk, ◌≤◌, ◌<◌, length, eqb};
ghost use Rattle.duality.specs.Lists.{cells};
ghost use Rattle.places.specs.Places.{count_to};
ghost use Rattle.places.specs.PlanTest.{cell_test_with};
ghost use Rattle.board.specs.Limits.{max_bidders};
ghost use Rattle.supply.specs.Board.{places_at};
ghost use Rattle.supply.specs.ByItem.{live};
ghost use Rattle.refusals.specs.Demand1.{first_of};
ghost use Rattle.matching.specs.Clash.{clash_checks};

use crate::live::LiveSheet;
use refusals::Refusal;

// How many bidders before one name an item. Cell by cell: by an iterator's `filter` and `count` two plans that are one take over a quarter more time to
// compare.
fn named_before(plan: &[u64], bidder: usize, item: u64) -> usize
    requires { bidder ≤ length plan.now }
    ensures named { result ≡ count_to bidder (λ h. eqb (cells plan.now h) item) }
    ensures few { result ≤ bidder }
{
    let mut named = 0;
    for h in 0..bidder {
        named += usize::from(plan[h] == item);
    }
    named
}

// A bidder's cell: 0, or an item with a live edge to it that has more places than earlier bidders name it.
#[tactic(auto, unfolding(places::specs::PlanTest::cell_test_with))]
fn cell_holds(sheet: &LiveSheet, plan: &[u64], bidder: usize) -> bool
    requires cell { bidder < length plan.now }
    requires bidder { bidder < max_bidders }
    ensures item { IsTrue result → cells plan.now bidder ≤ sheet.now.items.count }
    ensures test { result ≡ cell_test_with sheet.now.items.count (places_at sheet.now) (live sheet.now)
        (cells plan.now) bidder (cells plan.now bidder) }
{
    let item = plan[bidder];
    if item == 0 {
        return true;
    }
    if item > sheet.items() {
        return false;
    }
    let k = (item - 1) as usize;
    if sheet.weight(bidder, k).0 == 0 {
        return false;
    }
    named_before(plan, bidder, item) < usize::from(sheet.places(k))
}

/// Refusal 10: the first bidder whose cell does not hold.
pub fn plan_verdict(sheet: &LiveSheet, plan: &[u64]) -> Result<(), Refusal>
    requires { length plan.now ≤ max_bidders }
    ensures items { OnOk result ((i : ℕ) → i < length plan.now → cells plan.now i ≤ sheet.now.items.count) }
    ensures verdict { result ≡ first_of (clash_checks sheet.now.items.count (places_at sheet.now) (live sheet.now)
        (cells plan.now) (length plan.now)) }
{
    for i in 0..plan.len() {
        if !cell_holds(sheet, plan, i) {
            return Err(Refusal::Clash(i as u64 + 1));
        }
    }
    Ok(())
}
