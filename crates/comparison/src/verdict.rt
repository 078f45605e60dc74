// Refusals 9 and 10 of a plan that is compared.
ghost use Rattle.std.specs.Prelude.{◌≡◌, ℕ, OnOk, ◌≤◌, ◌<◌, length};
ghost use Rattle.duality.specs.Lists.{cells};
ghost use Rattle.board.specs.Limits.{max_bidders};
ghost use Rattle.refusals.specs.Demand1.{first_of};
ghost use Rattle.matching.specs.Plans.{PlanOn};
ghost use Rattle.comparison.specs.Compare.{plan_checks_on};

use matching::clash::plan_verdict;
use matching::live::LiveSheet;
use refusals::Refusal;

// Refusals 9 and 10 of one plan. One that is served is a plan on the live sheet.
#[tactic(auto, unfolding(refusals::specs::Demand1::first_of))]
pub(crate) fn plan_verdict_on(sheet: &LiveSheet, plan: &[u64]) -> Result<(), Refusal>
    requires { sheet.now.market.arrived ≤ max_bidders }
    ensures items { OnOk result ((i : ℕ) → i < length plan.now → cells plan.now i ≤ sheet.now.items.count) }
    ensures plan { OnOk result (PlanOn sheet.now plan.now) }
    ensures verdict { result ≡ first_of (plan_checks_on sheet.now plan.now) }
{
    if plan.len() != sheet.bidders() {
        return Err(Refusal::Uneven);
    }
    plan_verdict(sheet, plan)
}
