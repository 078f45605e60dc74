#![tactic(auto)]

// Two plans side by side on one live sheet (document 02, R-4): the difference of their weights, and their order.
mod difference; // in pence, exact
mod order; // the heavier first, then by cells
mod verdict; // refusals 9 and 10 of each plan

ghost use Rattle.std.specs.Prelude.{◌≡◌};
ghost use Rattle.comparison.specs.Compare.{compare_of};

use crate::difference::difference;
use crate::order::plans_order;
use crate::verdict::plan_verdict_on;
use matching::live::LiveSheet;
use matching::weight::plan_weight;
use refusals::Refusal;
use std::cmp::Ordering;
use supply::record::Board;

/// What `compare` answers in numbers, for C: the order is 1, 2 or 3.
#[repr(C)]
#[derive(Clone, Copy)]
pub struct Comparison {
    pub number: u64,
    pub place: u64,
    pub difference: i64,
    pub order: u64,
}

/// Compares two plans on a board's live edges: the first plan's weight less the second's in pence, and where the first stands beside the second, `Less` being
/// the earlier; or the refusal.
#[tactic(auto, using(refusals::proofs::Verdicts::first_on, refusals::proofs::Verdicts::first_stops, refusals::proofs::Verdicts::refused_up), unfolding(crate::specs::Compare::compare_of, crate::specs::Compare::compare_by, crate::specs::Compare::plans_checks, refusals::specs::Demand1::first_of))]
pub fn compare(board: &Board, first: &[u64], second: &[u64]) -> Result<(i64, Ordering), Refusal>
    ensures { result ≡ compare_of board.now first.now second.now }
{
    if !board.is_sound() {
        return Err(Refusal::Spoilt);
    }
    let sheet = LiveSheet::of(board);
    plan_verdict_on(&sheet, first)?;
    plan_verdict_on(&sheet, second)?;
    let weight = plan_weight(&sheet, first);
    let other = plan_weight(&sheet, second);
    Ok((
        difference(weight, other),
        plans_order(weight, other, first, second),
    ))
}
