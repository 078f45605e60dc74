// The exact call.
ghost use Rattle.std.specs.Prelude.{◌≡◌, OnErr};
ghost use Rattle.board.specs.Lent.{lists};
ghost use Rattle.hungarian.specs.Exact.{ExactOutcome};

use crate::live::keep_live;
use crate::solver::solve;
use board::lent::write_columns;
use board::units::Pence;
use refusals::Refusal;
use supply::columns::read_by_item;
use supply::lent::lent_verdict;
use supply::record::Board;

/// Writes a plan of greatest weight on the board's live edges, and prices and gains whose sum shows it, into three lent lists: solved by place, read by item.
/// Returns the weight, or the refusal.
pub fn exact(
    board: &Board,
    plan: &mut [u64],
    prices: &mut [u64],
    gains: &mut [u64],
) -> Result<Pence, Refusal>
    ensures outcome { ExactOutcome board.now (lists plan.old prices.old gains.old) result (lists plan.new prices.new gains.new) }
    ensures err { OnErr result (lists plan.new prices.new gains.new ≡ lists plan.old prices.old gains.old) }
{
    lent_verdict(board, plan.len(), prices.len(), gains.len())?;
    let bidders = board.market.arrived as usize;
    let mut weights = board.weights;
    keep_live(&mut weights, &board.market.withdrawn);
    let solution = solve(&weights, bidders);
    let columns = read_by_item(solution.columns, board.items, bidders);
    write_columns(
        columns,
        bidders,
        board.items.count as usize,
        plan,
        prices,
        gains,
    );
    Ok(solution.weight)
}
