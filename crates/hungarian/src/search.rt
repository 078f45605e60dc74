// The search for an alternating path, by two steps that call each other.
//
// The path is the parent links: from the item where it ends to its parent, from there to the item that the parent holds, and so to the root. The
// recursion is the order in which items are reached. As it unwinds, each item whose holder moves on goes to its parent, so the holders shift along
// the path and nothing else moves. Each item step but the last visits an item, so the number of unvisited items falls.
//
// What remains is asked of both steps, and is no invariant of `Search`: it does not hold between the visit of an item and its removal.
ghost use Rattle.std.specs.Prelude.{◌≡◌, ◌<◌};
ghost use Rattle.duality.specs.Lists.{cells};
ghost use Rattle.hungarian.specs.Tree.{tree_in, Remains};
ghost use Rattle.hungarian.specs.Search.{BidderStart, NextStart, Ended};

use crate::limits::ITEMS;
use crate::tree::{Cover, Search};

// The bidder is reached. Then either a bidder of gain 0 is released, to be left out, or the tree goes on over a tight edge to an item.
#[cycle(bidder_step_item_step)]
pub(crate) fn bidder_step(cover: &Cover, search: &mut Search, bidder: usize)
    requires start { BidderStart cover.now.weights.now cover.now.price.now cover.now.gain.now bidder (tree_in search.old) }
    requires remains { Remains search.old }
    ensures { Ended cover.now.weights.now cover.now.price.now cover.now.gain.now (tree_in search.old) (tree_in search.new) }
{
    let level = cover.gain[bidder] + search.front.fall;
    search.reach(cover, bidder, level);
    if search.front.next == ITEMS {
        return;
    }
    item_step(cover, search);
}

// The next item is reached over the tight edge from its parent. A free item goes to the parent, and a held one too where its holder moves on.
#[cycle(bidder_step_item_step)]
fn item_step(cover: &Cover, search: &mut Search)
    requires start { NextStart cover.now.weights.now cover.now.price.now cover.now.gain.now (tree_in search.old) }
    requires remains { Remains search.old }
    requires cell { search.old.front.cell < search.old.left.count }
    requires next { cells search.old.left.items search.old.front.cell ≡ search.old.front.next }
    ensures { Ended cover.now.weights.now cover.now.price.now cover.now.gain.now (tree_in search.old) (tree_in search.new) }
{
    let item = search.front.next;
    let parent = search.edges.parents[item];
    let held = search.holders[item];
    if held == 0 {
        search.give(item, parent);
        return;
    }
    search.visited[item] = 1;
    search.left.remove(search.front.cell);
    let holder = held - 1;
    bidder_step(cover, search, usize::from(holder));
    if search.front.mover == holder {
        search.give(item, parent);
    }
}
