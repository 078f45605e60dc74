// The lines of the output, written one after the other.
ghost use Rattle.std.specs.Prelude.{◌≡◌, ℕ, ◌+◌, ◌*◌, ◌≤◌, ◌<◌};
ghost use Rattle.text.specs.Limits.{max_line, max_at};
ghost use Rattle.text.specs.Out.{Puts};
ghost use Rattle.duality.specs.Lists.{cells};
ghost use Rattle.board.specs.Limits.{max_items, max_bidders};
ghost use Rattle.supply.specs.Board.{start_in};
ghost use Rattle.supply.specs.ByItem.{gone_by};
ghost use Rattle.supply.specs.Shape.{Fits};
ghost use Rattle.history.specs.Output.{bidder_lines, item_line, item_lines, column_lines, last_lines};

use board::lent::Columns;
use board::record::{Auction, Market};
use board::units::{Pence, Scaled};
use supply::record::Items;
use supply::shape::starts_of;
use text::print::Out;

// "`P` batch, kettle or 0, gain": a line for each bidder.
// The count is beside the lists, which have a cell for every bidder that there may be.
fn put_bidders(
    out: &mut Out<'_>,
    plan: &[u64; Auction::MAX_BIDDERS],
    gains: &[u64; Auction::MAX_BIDDERS],
    count: usize,
)
    requires count { count ≤ max_bidders }
    requires at { out.old.at ≡ 0 }
    ensures put { Puts out.old out.new (bidder_lines (cells plan.now) (cells gains.now) count) }
    ensures few { out.new.at ≤ out.old.at + max_line * count }
{
    for i in 0..count {
        out.put_line(b'P', &[i as u64 + 1, plan[i], gains[i]]);
    }
}

// "`Y` kettle, price (withdrawn ones omitted)": the line of an item.
fn put_item(out: &mut Out<'_>, withdrawn: bool, number: u64, price: u64)
    requires { out.old.at ≤ max_at }
    ensures put { Puts out.old out.new (item_line withdrawn number price) }
    ensures few { out.new.at ≤ out.old.at + max_line }
{
    if !withdrawn {
        out.put_line(b'Y', &[number, price]);
    }
}

// The lines of the items.
fn put_items(
    out: &mut Out<'_>,
    items: Items,
    withdrawn: [u8; Auction::MAX_ITEMS],
    prices: &[u64; Auction::MAX_BIDDERS],
)
    requires items { Fits items × ((k : ℕ) → k < items.count → start_in items k < max_items) }
    requires at { out.old.at ≤ max_line * max_bidders }
    ensures put { Puts out.old out.new (item_lines (gone_by items withdrawn) (cells prices.now) items.count) }
    ensures few { out.new.at ≤ out.old.at + max_line * items.count }
{
    let starts = starts_of(items);
    for k in 0..items.count as usize {
        put_item(out, withdrawn[starts[k]] != 0, k as u64 + 1, prices[k]);
    }
}

// The lines of the bidders, and of the items.
pub(crate) fn put_columns(out: &mut Out<'_>, columns: Columns, items: Items, market: Market)
    requires bidders { market.arrived ≤ max_bidders }
    requires items { Fits items × ((k : ℕ) → k < items.count → start_in items k < max_items) }
    requires at { out.old.at ≡ 0 }
    ensures put { Puts out.old out.new (column_lines columns items market) }
    ensures few { out.new.at ≤ out.old.at + max_line * (max_bidders + max_items) }
{
    put_bidders(out, &columns.plan, &columns.gains, market.arrived as usize);
    put_items(out, items, market.withdrawn, &columns.prices);
}

// "`T` worth, sum of prices and gains, bids in all; `E` greatest worth".
pub(crate) fn put_last(out: &mut Out<'_>, weight: Pence, sum: Scaled, bids: u64, greatest: Pence)
    requires { out.old.at ≤ max_line * (max_bidders + max_items) }
    ensures put { Puts out.old out.new (last_lines weight.0 sum.0 bids greatest.0) }
    ensures few { out.new.at ≤ out.old.at + max_line * 2 }
{
    out.put_line(b'T', &[weight.0, sum.0, bids]);
    out.put_line(b'E', &[greatest.0]);
}
