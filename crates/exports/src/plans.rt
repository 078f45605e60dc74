// The exact level, the slow count, the check of lists that were made elsewhere, and two plans side by side.
ghost use Rattle.std.specs.Prelude.{◌≡◌};
ghost use Rattle.board.specs.Lent.{lists};
ghost use Rattle.certificate.specs.Check.{check_of, checked_told};
ghost use Rattle.comparison.specs.Compare.{compare_of, compared_told};
ghost use Rattle.counting.specs.Call.{count_of, counted_told};
ghost use Rattle.exports.specs.Answers.{ExactAnswer};

use crate::answers::{comparison_of, totals_of, weight_told};
use certificate::{Totals, check};
use comparison::{Comparison, compare};
use counting::count;
use hungarian::exact::exact;
use refusals::Told;
use supply::record::Board;

// Writes a matching of greatest weight, and prices and gains that show it, into three lent lists. The value is that weight.
#[unsafe(no_mangle)]
pub extern "C" fn noughtelm_exact(
    board: Board,
    plan: &mut [u64],
    prices: &mut [u64],
    gains: &mut [u64],
) -> Told
    ensures { ExactAnswer board (lists plan.old prices.old gains.old) result (lists plan.new prices.new gains.new) }
{
    weight_told(exact(&board, plan, prices, gains))
}

// Counts the greatest weight of a plan, of few bidders and places. The value is that weight.
#[unsafe(no_mangle)]
pub extern "C" fn noughtelm_count(board: Board) -> Told
    ensures { result ≡ counted_told (count_of board) }
{
    weight_told(count(&board))
}

// Checks a matching, prices and gains against a board's live edges at a slack p/q.
#[unsafe(no_mangle)]
pub extern "C" fn noughtelm_check(
    board: Board,
    plan: &[u64],
    prices: &[u64],
    gains: &[u64],
    p: u64,
    q: u64,
) -> Totals
    ensures { result ≡ checked_told (check_of board (lists plan.now prices.now gains.now) p q) }
{
    totals_of(check(&board, plan, prices, gains, p, q))
}

// Compares two plans on a board's live edges.
#[unsafe(no_mangle)]
pub extern "C" fn noughtelm_compare(board: Board, first: &[u64], second: &[u64]) -> Comparison
    ensures { result ≡ compared_told (compare_of board first.now second.now) }
{
    comparison_of(compare(&board, first, second))
}
