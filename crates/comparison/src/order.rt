// The order of plans: the heavier first, then by cells.
ghost use Rattle.std.specs.Prelude.{◌≡◌, length};
ghost use Rattle.duality.specs.Lists.{cells};
ghost use Rattle.comparison.specs.Compare.{smaller_first, cells_order};

use board::units::Pence;
use std::cmp::Ordering;

// By weight, the greater first; then by cells, of which the first that is smaller makes the earlier plan.
pub(crate) fn plans_order(weight: Pence, other: Pence, first: &[u64], second: &[u64]) -> Ordering
    requires { length second.now ≡ length first.now }
    ensures { result ≡ smaller_first other.0 weight.0 (cells_order (cells first.now) (cells second.now) 0 (length first.now)) }
{
    other.0.cmp(&weight.0).then(first.cmp(second))
}
