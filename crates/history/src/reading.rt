// The figures of a sound board that are not in its record.
ghost use Rattle.std.specs.Prelude.{◌≡◌, ◌+◌, ◌≤◌, ◌<◌, ◌^◌};
ghost use Rattle.duality.specs.Lists.{cells};
ghost use Rattle.duality.specs.Sums.{sum_to};
ghost use Rattle.board.specs.Limits.{max_bidders};
ghost use Rattle.supply.specs.Sound.{Sound};
ghost use Rattle.hungarian.specs.Exact.{greatest_on};

use board::lent::{Columns, sum};
use board::record::Auction;
use board::units::{Pence, Scaled};
use hungarian::exact::exact;
use supply::record::Board;

// The sum of the first prices and gains.
pub(crate) fn total_of(columns: Columns, bidders: usize, items: usize) -> Scaled
    requires { (bidders ≤ max_bidders) × (items ≤ max_bidders) × (sum_to items (cells columns.prices) + sum_to bidders (cells columns.gains) < 2 ^ 64) }
    ensures { result.0 ≡ sum_to items (cells columns.prices) + sum_to bidders (cells columns.gains) }
{
    Scaled(sum(&columns.prices, items) + sum(&columns.gains, bidders))
}

// The greatest weight of a matching on the live edges.
pub(crate) fn greatest(board: &Board) -> Pence
    requires { Sound board.now }
    ensures { result.0 ≡ greatest_on board.now }
{
    let mut plan = [0u64; Auction::MAX_BIDDERS];
    let mut prices = [0u64; Auction::MAX_ITEMS];
    let mut gains = [0u64; Auction::MAX_BIDDERS];
    let Ok(weight) = exact(board, &mut plan, &mut prices, &mut gains) else {
        return Pence(0);
    };
    weight
}
