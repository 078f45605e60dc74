// A withdrawal's items, tested one by one.
ghost use Rattle.std.specs.Prelude.{◌≡◌, ◌<◌, length};
ghost use Rattle.refusals.specs.Demand1.{first_of};
ghost use Rattle.duality.specs.Lists.{cells};
ghost use Rattle.supply.specs.ByItem.{withdrawn_at};
ghost use Rattle.auction.specs.Items.{item_checks, items_checks};

use board::ranges::is_within;
use matching::live::LiveSheet;
use refusals::Refusal;

// The item of cell i, tested: in the order of an edge, whose weight is tested between, so that neither function serves both.
#[tactic(auto, using(crate::proofs::EdgeTests::item_tests), unfolding(crate::specs::Items::item_checks, refusals::specs::Demand1::first_of))]
fn item_verdict(sheet: &LiveSheet, items: &[u64], i: usize) -> Result<(), Refusal>
    requires { i < length items.now }
    ensures { result ≡ first_of (item_checks sheet.now.items.count (withdrawn_at sheet.now) (cells items.now) i) }
{
    let place = i as u64 + 1;
    let item = items[i];
    if !is_within(sheet.items(), item) {
        return Err(Refusal::Unknown(place));
    }
    if sheet.is_gone((item - 1) as usize) {
        return Err(Refusal::Gone(place));
    }
    if i > 0 && item <= items[i - 1] {
        return Err(Refusal::Order(place));
    }
    Ok(())
}

// All items, each tested before the next.
pub(crate) fn items_verdict(sheet: &LiveSheet, items: &[u64]) -> Result<(), Refusal>
    ensures { result ≡ first_of (items_checks sheet.now.items.count (withdrawn_at sheet.now) (cells items.now) 0 (length items.now)) }
{
    for i in 0..items.len() {
        item_verdict(sheet, items, i)?;
    }
    Ok(())
}
