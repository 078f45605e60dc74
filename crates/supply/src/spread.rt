// What is said of items, said of their places.
ghost use Rattle.std.specs.Prelude.{◌≡◌, ◌++◌, ◌+◌, ◌≤◌, length, take};
ghost use Rattle.duality.specs.Lists.{cells};
ghost use Rattle.board.specs.Limits.{max_items};
ghost use Rattle.supply.specs.Shape.{Starts, Fits};
ghost use Rattle.supply.specs.Spread.{spread_row, numbers_from, places_named, Listable};

use crate::record::Items;
use crate::shape::{count_in, fill};
use board::record::Auction;

// A row by item, as a row by place: each place has the weight of its item.
pub fn spread_row(items: Items, row: [u32; Auction::MAX_ITEMS]) -> [u32; Auction::MAX_ITEMS]
    requires { Fits items }
    ensures { result ≡ spread_row items row }
{
    let count = items.count as usize;
    let mut spread = [0u32; Auction::MAX_ITEMS];
    let mut next: usize = 0;
    for k in 0..count {
        let places = count_in(items.places[k]);
        fill(&mut spread, next, places, row[k]);
        next += places;
    }
    spread
}

// The numbers of places, as many as `count` says.
#[derive(Clone, Copy)]
pub struct PlaceList {
    pub numbers: [u64; Auction::MAX_ITEMS],
    pub count: usize,
}

// So many places more, from one on.
fn push_places(named: &mut PlaceList, from: usize, places: usize)
    requires room { named.old.count + places ≤ max_items }
    requires among { from + places ≤ max_items }
    ensures count { named.new.count ≡ named.old.count + places }
    ensures numbers { take named.new.count named.new.numbers ≡ take named.old.count named.old.numbers ++ numbers_from from places }
{
    for j in 0..places {
        let at = named.count;
        named.numbers[at] = (from + j) as u64 + 1;
        named.count = at + 1;
    }
}

// The places of all items of a list.
pub fn spread_items(items: Items, starts: &[usize; Auction::MAX_ITEMS], list: &[u64]) -> PlaceList
    requires fits { Fits items }
    requires starts { Starts items starts.now }
    requires listable { Listable items (cells list.now) (length list.now) }
    ensures few { result.count ≤ max_items }
    ensures numbers { take result.count result.numbers ≡ places_named items (cells list.now) (length list.now) }
{
    let mut named = PlaceList {
        numbers: [0; Auction::MAX_ITEMS],
        count: 0,
    };
    for &item in list {
        let k = (item - 1) as usize;
        push_places(&mut named, starts[k], count_in(items.places[k]));
    }
    named
}
