// What a matching that was made elsewhere weighs.
ghost use Rattle.std.specs.Prelude.{◌≡◌, ℕ, ◌≤◌, ◌<◌, length};
ghost use Rattle.duality.specs.Lists.{cells};
ghost use Rattle.duality.specs.Matching.{at_cell, weight_of};
ghost use Rattle.supply.specs.ByItem.{live};
ghost use Rattle.board.specs.Limits.{max_bidders, word_limit};

use crate::live::LiveSheet;
use board::units::Pence;

// The weight of the edge that a bidder's cell uses, 0 where the cell is 0.
fn cell_weight(sheet: &LiveSheet, bidder: usize, cell: u64) -> Pence
    requires bidder { bidder < max_bidders }
    requires item { cell ≤ sheet.now.items.count }
    ensures weight { result.0 ≡ at_cell (live sheet.now bidder) cell }
    ensures small { result.0 < word_limit }
{
    if cell == 0 {
        return Pence(0);
    }
    sheet.weight(bidder, (cell - 1) as usize)
}

/// The weight of a matching: all edges used, added.
pub fn plan_weight(sheet: &LiveSheet, plan: &[u64]) -> Pence
    requires few { length plan.now ≤ max_bidders }
    requires items { (i : ℕ) → i < length plan.now → cells plan.now i ≤ sheet.now.items.count }
    ensures { result.0 ≡ weight_of (length plan.now) (live sheet.now) (cells plan.now) }
{
    let mut sum = 0;
    for (i, &cell) in plan.iter().enumerate() {
        sum += cell_weight(sheet, i, cell).0;
    }
    Pence(sum)
}
