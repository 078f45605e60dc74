// The count itself: every plan is tried.
ghost use Rattle.std.specs.Prelude.{◌≡◌, ◌*◌, ◌≤◌};
ghost use Rattle.duality.specs.Lists.{cells};
ghost use Rattle.board.specs.Limits.{max_weight};
ghost use Rattle.counting.specs.Count.{count_with};
ghost use Rattle.counting.specs.Rows.{rows_at, Countable};

use crate::limits::COUNTED;
use board::units::Pence;

// "tries every free kettle and none for the first batch, then does likewise for the rest": of the bidders that are left, the first has the first row.
pub(crate) fn greatest_weight(left: usize, items: usize, rows: &[u64], free: [u8; COUNTED]) -> Pence
    requires { Countable left items rows.now }
    ensures count { result.0 ≡ count_with left items (cells free) (rows_at rows.now) }
    ensures small { result.0 ≤ left * max_weight }
{
    if left == 0 {
        return Pence(0);
    }
    let rest = &rows[COUNTED..];
    // None.
    let mut best = greatest_weight(left - 1, items, rest, free).0;
    // Every free item.
    for k in 0..items {
        if free[k] > 0 {
            let mut fewer = free;
            fewer[k] -= 1;
            let weight = greatest_weight(left - 1, items, rest, fewer).0;
            best = best.max(rows[k] + weight);
        }
    }
    Pence(best)
}
