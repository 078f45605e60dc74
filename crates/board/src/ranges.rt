// What is within its range.
ghost use Rattle.std.specs.Prelude.{◌≡◌, ◌↔◌, IsTrue};
ghost use Rattle.board.specs.Ranges.{Within, SlackIn, within_test, slack_test};

use crate::record::Auction;

// Whether a number is from 1 to a last one.
#[tactic(auto, unfolding(crate::specs::Ranges::within_test))]
pub fn is_within(last: u64, x: u64) -> bool
    ensures test { result ≡ within_test last x }
    ensures within { IsTrue result ↔ Within 1 last x }
{
    1 <= x && x <= last
}

// Whether p/q is a slack with p from `least` on.
#[tactic(auto, unfolding(crate::specs::Ranges::slack_test))]
pub fn is_slack(least: u64, p: u64, q: u64) -> bool
    ensures test { result ≡ slack_test least p q }
    ensures slack { IsTrue result ↔ SlackIn least p q }
{
    least <= p && p < q && q <= Auction::MAX_Q
}
