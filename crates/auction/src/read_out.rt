// Read out: the matching, the prices and the gains, into three lent lists.
ghost use Rattle.std.specs.Prelude.{◌≡◌, OnErr};
ghost use Rattle.board.specs.Lent.{lists};
ghost use Rattle.auction.specs.ReadOut.{outcome, read_out_of};

use board::lent::{columns_of, write_columns};
use refusals::Refusal;
use supply::columns::read_by_item;
use supply::lent::lent_verdict;
use supply::record::Board;

// Writes the matching, the prices and the gains into three lent lists; or the refusal, and the lists as they were.
// As in the exact call, the lists are read by item and written: two calls, with nothing between them to name.
pub fn read_out(
    board: &Board,
    plan: &mut [u64],
    prices: &mut [u64],
    gains: &mut [u64],
) -> Result<(), Refusal>
    ensures answers { outcome result (lists plan.new prices.new gains.new) ≡ read_out_of board.now (lists plan.old prices.old gains.old) }
    ensures plan { OnErr result (plan.new ≡ plan.old) }
    ensures prices { OnErr result (prices.new ≡ prices.old) }
    ensures gains { OnErr result (gains.new ≡ gains.old) }
{
    lent_verdict(board, plan.len(), prices.len(), gains.len())?;
    let bidders = board.market.arrived as usize;
    let by_place = columns_of(board.state, board.market.items as usize);
    let columns = read_by_item(by_place, board.items, bidders);
    write_columns(
        columns,
        bidders,
        board.items.count as usize,
        plan,
        prices,
        gains,
    );
    Ok(())
}
