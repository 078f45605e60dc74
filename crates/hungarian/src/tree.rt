// The alternating tree: from a bidder over tight edges to items, and from a held item to its holder.
//
// Items and bidders are cells from 0. While the tree grows the gains of its bidders fall together and the prices of its items rise with them.
// Nothing is lowered for that: `excess` and `low` are kept `fall` too high, and the lent prices and gains change once, after the search.
ghost use Rattle.std.specs.Prelude.{◌≡◌, ℕ, ◌+◌, ◌-◌, ◌≤◌, ◌<◌, set};
ghost use Rattle.duality.specs.Lists.{cells};
ghost use Rattle.board.specs.Limits.{max_items, max_bidders};
ghost use Rattle.hungarian.specs.Weights.{matrix_at};
ghost use Rattle.hungarian.specs.Tree.{tree_in, moved_to, Sized, Remains};
ghost use Rattle.hungarian.specs.Growth.{Sprout};
ghost use Rattle.hungarian.specs.Reach.{Fits, RelaxedAt, ItemList, Swept, ItemAt, Dear, NextAt, Looked};

use crate::limits::{BIDDERS, ITEMS, MAX_WEIGHT, UNREACHED, WEIGHTS};

// What a search reads: the matrix of weights, and the prices and gains before the search, which cover its edges.
#[derive(Clone, Copy)]
pub(crate) struct Cover<'a> {
    pub weights: &'a [u32; WEIGHTS],
    pub price: &'a [u32; ITEMS],
    pub gain: &'a [u32; BIDDERS],
}

// The unvisited items, in as many first cells as there are.
// An array beside its count: `Remaining` of specs/Tree.antt is said of a list with a cell for each item.
#[derive(Clone, Copy)]
pub(crate) struct Left {
    pub items: [u8; ITEMS],
    pub count: usize,
}

impl Left {
    // All items, in rising order.
    fn all() -> Self
        ensures count { result.count ≡ max_items }
        ensures items { (k : ℕ) → k < max_items → cells result.items k ≡ k }
    {
        let mut items = [0u8; ITEMS];
        for k in 0..ITEMS {
            items[k] = k as u8;
        }
        Left {
            items,
            count: ITEMS,
        }
    }

    // The item in a cell; ITEMS for none, as `ItemAt` of specs/Reach.antt has it.
    fn item(&self, cell: usize) -> usize
        requires { cell ≤ max_items }
        ensures { ItemAt self.now.items cell result }
    {
        if cell == ITEMS {
            return ITEMS;
        }
        usize::from(self.items[cell])
    }

    // The item in a cell is visited: the last of them takes its cell.
    pub(crate) fn remove(&mut self, cell: usize)
        requires cell { cell < self.old.count }
        requires few { self.old.count ≤ max_items }
        ensures items { self.new.items ≡ set self.old.items cell (cells self.old.items (self.old.count - 1)) }
        ensures count { self.new.count ≡ self.old.count - 1 }
    {
        self.count -= 1;
        self.items[cell] = self.items[self.count];
    }
}

// The edges by which items are reached, for each item:
// - excess: of an unvisited item the least excess, gain plus price less weight, of an edge from a reached bidder; of a visited one the fall at its visit;
// - parents: the reached bidder whose edge has that excess.
// Two arrays, as `tree_of` of specs/Tree.antt takes them.
#[derive(Clone, Copy)]
pub(crate) struct Edges {
    pub excess: [u32; ITEMS],
    pub parents: [u8; ITEMS],
}

impl Edges {
    // The bidder's edge to an item is looked at, whose excess is `own`: where that is less than the item's, the item gets it, and the bidder as its parent.
    // What the item's excess is then.
    fn relax(&mut self, k: usize, own: u32, bidder: u8) -> u32
        requires { k < max_items }
        ensures relaxed { RelaxedAt k own bidder self.old.excess self.old.parents self.new.excess self.new.parents }
        ensures excess { result ≡ cells self.new.excess k }
    {
        let old = self.excess[k];
        if own < old {
            self.excess[k] = own;
            self.parents[k] = bidder;
            return own;
        }
        old
    }
}

// How far a search has come.
#[derive(Clone, Copy)]
pub(crate) struct Front {
    // The bidder that is inserted.
    pub root: u8,
    // The least gain of a reached bidder, and whose it is.
    pub low: u32,
    pub lowest: u8,
    // By how much the gains of reached bidders are to fall so far.
    pub fall: u32,
    // The item of least excess, to be visited next; or ITEMS, where the lowest gain is no greater. Its cell among those left, ITEMS for none.
    // Numbers, not an Option: `Looked` of specs/Reach.antt, a statement by docs/notes/R-10.md, takes the number of items for none.
    pub next: usize,
    pub cell: usize,
    // The bidder at which the alternating path starts, as far as it is known.
    pub mover: u8,
}

// The tree, while it is searched: the number of the bidder that holds each item, 0 where nobody does; 1 where an item is visited, and 0 where it is not.
// Holders are numbers as in the record that C shares, and marks are numbers as `unvisited` of specs/Tree.antt counts them.
#[derive(Clone, Copy)]
pub(crate) struct Search {
    pub holders: [u8; ITEMS],
    pub visited: [u8; ITEMS],
    pub left: Left,
    pub edges: Edges,
    pub front: Front,
}

impl Search {
    // A tree of its root alone: no item is visited, and none has been reached.
    pub(crate) fn rooted(holders: [u8; ITEMS], root: u8) -> Self
        ensures sprout { Sprout root holders (tree_in result) }
        ensures sized { Sized (tree_in result) }
        ensures remains { Remains result }
    {
        Search {
            holders,
            visited: [0; ITEMS],
            left: Left::all(),
            edges: Edges {
                excess: [UNREACHED; ITEMS],
                parents: [root; ITEMS],
            },
            front: Front {
                root,
                low: MAX_WEIGHT,
                lowest: root,
                fall: 0,
                next: ITEMS,
                cell: ITEMS,
                mover: root,
            },
        }
    }

    // The bidder is reached: its edges to the items left are looked at, its level may be the lowest, and the fall grows.
    pub(crate) fn reach(&mut self, cover: &Cover, bidder: usize, level: u32)
        requires fits { Fits (matrix_at cover.now.weights.now) (cells cover.now.price.now) bidder level self.old.edges.excess self.old.edges.parents }
        requires remains { Remains self.old }
        requires dear { Dear (matrix_at cover.now.weights.now) (cells cover.now.price.now) bidder level self.old.visited self.old.edges.excess }
        ensures looked { Looked (matrix_at cover.now.weights.now) (cells cover.now.price.now) bidder level (tree_in self.old) (tree_in self.new) }
        ensures left { self.new.left ≡ self.old.left }
        ensures next { NextAt self.new.left.items self.new.left.count self.new.front }
    {
        if level < self.front.low {
            self.front.low = level;
            self.front.lowest = bidder as u8;
        }
        self.front.mover = self.front.lowest;
        let near = sweep(
            cover,
            bidder,
            level,
            &self.left,
            &mut self.edges,
            self.front.low,
        );
        self.front.fall = near.fall;
        self.front.cell = near.cell;
        self.front.next = self.left.item(near.cell);
    }

    // The item goes to its parent, at which the path now starts.
    pub(crate) fn give(&mut self, item: usize, parent: u8)
        requires item { item < max_items }
        requires parent { parent < max_bidders }
        ensures holders { self.new.holders ≡ set self.old.holders item (parent + 1) }
        ensures front { self.new.front ≡ moved_to self.old.front parent }
        ensures visited { self.new.visited ≡ self.old.visited }
        ensures edges { self.new.edges ≡ self.old.edges }
    {
        self.holders[item] = parent + 1;
        self.front.mover = parent;
    }
}

// Where the fall comes to: the least excess below a low level, and the cell of its item; or the low level, and ITEMS. A number, not an Option, as `Swept`
// of specs/Reach.antt takes it.
#[derive(Clone, Copy)]
struct Nearest {
    fall: u32,
    cell: usize,
}

// The bidder's edges to the items left are looked at, `level` being its gain and the fall so far. The fall grows till the lowest gain is 0 or an edge to
// an unvisited item is tight: the one of least excess, the first of several. There is no edge of weight 0, and none is taken for one: its excess is no
// less than the gain.
fn sweep(
    cover: &Cover,
    bidder: usize,
    level: u32,
    left: &Left,
    edges: &mut Edges,
    low: u32,
) -> Nearest
    requires fits { Fits (matrix_at cover.now.weights.now) (cells cover.now.price.now) bidder level edges.old.excess edges.old.parents }
    requires left { ItemList left.now.items left.now.count }
    ensures { Swept (matrix_at cover.now.weights.now) (cells cover.now.price.now) bidder level left.now.items
        edges.old.excess edges.old.parents edges.new.excess edges.new.parents low result.cell result.fall left.now.count }
{
    let weights = cover.weights;
    let price = cover.price;
    let mut fall = low;
    let mut cell = ITEMS;
    for j in 0..left.count {
        let k = usize::from(left.items[j]);
        let own = level + price[k] - weights[bidder * ITEMS + k];
        let now = edges.relax(k, own, bidder as u8);
        if now < fall {
            fall = now;
            cell = j;
        }
    }
    Nearest { fall, cell }
}
