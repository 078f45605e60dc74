// The difference of two weights, in pence.
ghost use Rattle.std.specs.Prelude.{◌≡◌, ◌≤◌, pos, ◌-ℤ◌};
ghost use Rattle.matching.specs.Plans.{most_weight};

use board::units::Pence;

// What the first weighs less what the second weighs, negative where the first weighs less.
pub(crate) fn difference(first: Pence, second: Pence) -> i64
    requires first { first.0 ≤ most_weight }
    requires second { second.0 ≤ most_weight }
    ensures { result ≡ pos first.0 -ℤ pos second.0 }
{
    first.0 as i64 - second.0 as i64
}
