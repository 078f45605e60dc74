// A board's live edges, as a matrix of weights.
ghost use Rattle.std.specs.Prelude.{◌≡◌, ◌<◌};
ghost use Rattle.board.specs.Limits.{max_items, max_bidders};
ghost use Rattle.hungarian.specs.LiveWeights.{Cleared, LiveTo};

use crate::limits::{BIDDERS, ITEMS, WEIGHTS};

// No bidder has an edge at the item.
fn clear_item(weights: &mut [u32; WEIGHTS], item: usize)
    requires { item < max_items }
    ensures { Cleared item max_bidders weights.old weights.new }
{
    for i in 0..BIDDERS {
        weights[i * ITEMS + item] = 0;
    }
}

// Only live edges are left: at withdrawn items there are none.
pub(crate) fn keep_live(weights: &mut [u32; WEIGHTS], withdrawn: &[u8; ITEMS])
    ensures { LiveTo max_items weights.old withdrawn.now weights.new }
{
    for k in 0..ITEMS {
        if withdrawn[k] != 0 {
            clear_item(weights, k);
        }
    }
}
