#![tactic(auto)]

// The check of a matching, prices and gains that were made elsewhere.
mod cover; // prices and gains: refusals 11 and 12, and their sum

ghost use Rattle.std.specs.Prelude.{◌≡◌, ℕ, OnOk, ◌↔◌, IsTrue, ◌≤◌, ◌<◌, length};
ghost use Rattle.duality.specs.Lists.{cells};
ghost use Rattle.supply.specs.Board.{places_at};
ghost use Rattle.supply.specs.ByItem.{withdrawn_at, live};
ghost use Rattle.board.specs.Limits.{max_bidders, max_q};
ghost use Rattle.refusals.specs.Demand1.{first_of};
ghost use Rattle.board.specs.Lent.{lists};
ghost use Rattle.certificate.specs.Check.{Capped, even_test, check_of, list_checks};

use crate::cover::{cover_verdict, gains_sum, gains_verdict, prices_sum, prices_verdict};
use board::ranges::is_slack;
use board::units::{Pence, Scaled, Slack};
use matching::clash::plan_verdict;
use matching::live::LiveSheet;
use matching::weight::plan_weight;
use refusals::Refusal;
use supply::record::Board;

/// What `check` answers in numbers, for C: the weight in pence, the sum in q-ths of a penny.
#[repr(C)]
#[derive(Clone, Copy)]
pub struct Totals {
    pub number: u64,
    pub place: u64,
    pub weight: u64,
    pub total: u64,
}

// Refusal 9: whether three lists have a cell for each bidder, item and bidder, and no more.
#[tactic(auto, unfolding(crate::specs::Check::even_test))]
fn is_even(bidders: usize, items: usize, plan: usize, prices: usize, gains: usize) -> bool
    ensures test { result ≡ even_test bidders items plan prices gains }
    ensures even { IsTrue result ↔ (plan ≡ bidders × prices ≡ items × gains ≡ bidders) }
{
    plan == bidders && prices == items && gains == bidders
}

// Refusals 10, 11 and 12, for lists of the right lengths.
#[tactic(auto, using(refusals::proofs::Verdicts::first_on, refusals::proofs::Verdicts::first_stops, refusals::proofs::Verdicts::refused_up), unfolding(crate::specs::Check::list_checks))]
fn lists_verdict(
    sheet: &LiveSheet,
    slack: Slack,
    plan: &[u64],
    prices: &[u64],
    gains: &[u64],
) -> Result<(), Refusal>
    requires plan { length plan.now ≤ max_bidders }
    requires prices { length prices.now ≡ sheet.now.items.count }
    requires gains { length gains.now ≡ length plan.now }
    requires slack { slack.p < slack.q }
    requires q { slack.q ≤ max_q }
    ensures items { OnOk result ((i : ℕ) → i < length plan.now → cells plan.now i ≤ sheet.now.items.count) }
    ensures prices_capped { OnOk result (Capped prices.now) }
    ensures gains_capped { OnOk result (Capped gains.now) }
    ensures verdict { result ≡ first_of (list_checks (length plan.now) sheet.now.items.count (places_at sheet.now)
        (withdrawn_at sheet.now) (live sheet.now) (lists plan.now prices.now gains.now) slack.p slack.q) }
{
    plan_verdict(sheet, plan)?;
    prices_verdict(sheet, prices)?;
    gains_verdict(sheet.items(), gains)?;
    cover_verdict(sheet, slack, prices, gains)
}

/// Checks a matching, prices and gains against a board's live edges at a slack p/q, here with p from 0.
#[tactic(auto, unfolding(crate::specs::Check::check_of, crate::specs::Check::check_by, crate::specs::Check::check_rest, refusals::specs::Demand1::first_of))]
pub fn check(
    board: &Board,
    plan: &[u64],
    prices: &[u64],
    gains: &[u64],
    p: u64,
    q: u64,
) -> Result<(Pence, Scaled), Refusal>
    ensures { result ≡ check_of board.now (lists plan.now prices.now gains.now) p q }
{
    if !board.is_sound() {
        return Err(Refusal::Spoilt);
    }
    if !is_slack(0, p, q) {
        return Err(Refusal::Slack);
    }
    let bidders = board.market.arrived as usize;
    let items = board.items.count as usize;
    if !is_even(bidders, items, plan.len(), prices.len(), gains.len()) {
        return Err(Refusal::Uneven);
    }
    let sheet = LiveSheet::of(board);
    lists_verdict(&sheet, Slack { p, q }, plan, prices, gains)?;
    let weight = plan_weight(&sheet, plan);
    let total = prices_sum(&sheet, prices) + gains_sum(gains);
    Ok((weight, Scaled(total)))
}
