// Prices and gains that were made elsewhere, as a cover of the live edges.
//
// A slack is a record that C shares, of any two numbers, so what it must be is asked where it is used. So it is of the lists: they are the caller's, and
// what is known of them comes with one verdict after the other, so that a struct with these facts would have to be made anew after each.
ghost use Rattle.std.specs.Prelude.{◌≡◌, OnOk, not, ◌&&◌, ◌||◌, ◌*◌, ◌≤◌, ◌<◌, length, eqb, leb};
ghost use Rattle.duality.specs.Lists.{cells};
ghost use Rattle.duality.specs.Sums.{sum_to};
ghost use Rattle.supply.specs.Board.{places_at};
ghost use Rattle.supply.specs.ByItem.{withdrawn_at, live};
ghost use Rattle.board.specs.Limits.{max_items, max_bidders, max_q, max_price};
ghost use Rattle.refusals.specs.Demand1.{first_of};
ghost use Rattle.certificate.specs.Check.{Capped, price_checks, gain_checks, covered_test, bare_checks};

use board::record::Auction;
use board::units::Slack;
use matching::live::LiveSheet;
use refusals::Refusal;

// An item's price: within the limit, and 0 where the item is withdrawn.
fn price_holds(price: u64, withdrawn: bool) -> bool
    ensures { result ≡ (leb price max_price && (not withdrawn || eqb price 0)) }
{
    if withdrawn {
        return price == 0;
    }
    price <= Auction::MAX_PRICE
}

// Refusal 11 at an item: the first whose price does not hold.
pub(crate) fn prices_verdict(sheet: &LiveSheet, prices: &[u64]) -> Result<(), Refusal>
    requires { length prices.now ≤ sheet.now.items.count }
    ensures capped { OnOk result (Capped prices.now) }
    ensures verdict { result ≡ first_of (price_checks (withdrawn_at sheet.now) (cells prices.now) (length prices.now)) }
{
    for (k, &price) in prices.iter().enumerate() {
        if !price_holds(price, sheet.is_gone(k)) {
            return Err(Refusal::Price(k as u64 + 1));
        }
    }
    Ok(())
}

// Refusal 11 at a bidder: the first whose gain is above the limit.
pub(crate) fn gains_verdict(items: u64, gains: &[u64]) -> Result<(), Refusal>
    requires items { items ≤ max_items }
    requires gains { length gains.now ≤ max_bidders }
    ensures capped { OnOk result (Capped gains.now) }
    ensures verdict { result ≡ first_of (gain_checks items (cells gains.now) (length gains.now)) }
{
    for (i, &gain) in gains.iter().enumerate() {
        if gain > Auction::MAX_PRICE {
            return Err(Refusal::Price(items + (i as u64 + 1)));
        }
    }
    Ok(())
}

// Whether every live edge of a bidder is covered.
fn row_covered(sheet: &LiveSheet, slack: Slack, prices: &[u64], bidder: usize, gain: u64) -> bool
    requires slack { slack.p < slack.q }
    requires q { slack.q ≤ max_q }
    requires bidder { bidder < max_bidders }
    requires gain { gain ≤ max_price }
    requires prices { length prices.now ≤ sheet.now.items.count }
    requires capped { Capped prices.now }
    ensures { result ≡ covered_test (length prices.now) (live sheet.now bidder) slack.p slack.q (cells prices.now) gain }
{
    for (k, &price) in prices.iter().enumerate() {
        if slack.least(sheet.weight(bidder, k)).0 > gain + price {
            return false;
        }
    }
    true
}

// Refusal 12: the first bidder with a live edge that is not covered.
pub(crate) fn cover_verdict(
    sheet: &LiveSheet,
    slack: Slack,
    prices: &[u64],
    gains: &[u64],
) -> Result<(), Refusal>
    requires slack { slack.p < slack.q }
    requires q { slack.q ≤ max_q }
    requires gains { length gains.now ≤ max_bidders }
    requires prices { length prices.now ≤ sheet.now.items.count }
    requires prices_capped { Capped prices.now }
    requires gains_capped { Capped gains.now }
    ensures { result ≡ first_of (bare_checks (length prices.now) (live sheet.now)
        slack.p slack.q (cells prices.now) (cells gains.now) (length gains.now)) }
{
    for (i, &gain) in gains.iter().enumerate() {
        if !row_covered(sheet, slack, prices, i, gain) {
            return Err(Refusal::Bare(i as u64 + 1));
        }
    }
    Ok(())
}

// A list's gains, added.
pub(crate) fn gains_sum(gains: &[u64]) -> u64
    requires few { length gains.now ≤ max_bidders }
    requires capped { Capped gains.now }
    ensures sum { result ≡ sum_to (length gains.now) (cells gains.now) }
    ensures small { result ≤ max_bidders * max_price }
{
    gains.iter().sum()
}

// A price, once for each of so many places.
fn priced(places: u8, price: u64) -> u64
    requires { price ≤ max_price }
    ensures price { result ≡ places * price }
    ensures small { result ≤ 256 * max_price }
{
    u64::from(places) * price
}

// A list's prices, added, each once per place.
pub(crate) fn prices_sum(sheet: &LiveSheet, prices: &[u64]) -> u64
    requires few { length prices.now ≤ max_items }
    requires capped { Capped prices.now }
    ensures sum { result ≡ sum_to (length prices.now) (λ k. places_at sheet.now k * cells prices.now k) }
    ensures small { result ≤ max_items * (256 * max_price) }
{
    let mut total = 0;
    for (k, &price) in prices.iter().enumerate() {
        total += priced(sheet.places(k), price);
    }
    total
}
