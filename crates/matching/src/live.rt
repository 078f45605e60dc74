// The live edges of a board that is lent, with the first place of each item.
ghost use Rattle.std.specs.Prelude.{◌≡◌, ◌≤◌, ◌<◌};
ghost use Rattle.board.specs.Limits.{max_items, max_bidders, word_limit};
ghost use Rattle.supply.specs.Board.{places_at};
ghost use Rattle.supply.specs.ByItem.{live, withdrawn_at};
ghost use Rattle.supply.specs.Shape.{Located};
ghost use Rattle.supply.specs.Sound.{Sound};

use board::record::Auction;
use board::units::{Pence, weight_in};
use std::marker::Model;
use supply::record::Board;
use supply::shape::starts_of;

/// The live sheet: the edges of a board whose item is not withdrawn, read by item.
#[derive(Drop)]
pub struct LiveSheet<'a> {
    board: &'a Board,
    starts: [usize; Auction::MAX_ITEMS],
}

impl<'a> Model for LiveSheet<'a> {
    ghost use Rattle.supply.specs.declared.record.Board.{Board};
    ghost use Rattle.supply.specs.Shape.{Located};

    ghost Value = { Board };

    ghost view = { λ s. s.board.now };

    ghost invariant = { λ s. Located s.board.now.items s.starts };
}

impl<'a> LiveSheet<'a> {
    /// The live sheet of a board, with the first place of each of its items.
    pub fn new(board: &'a Board, starts: [usize; Auction::MAX_ITEMS]) -> Self
        requires { Located board.now.items starts }
        ensures { result ≡ board.now }
    {
        LiveSheet { board, starts }
    }

    /// The live sheet of a board that is sound.
    pub fn of(board: &'a Board) -> Self
        requires { Sound board.now }
        ensures { result ≡ board.now }
    {
        LiveSheet::new(board, starts_of(board.items))
    }

    /// The weight of the live edge between a bidder and an item, 0 where there is none, as `live` of supply specs/ByItem has it.
    pub fn weight(&self, bidder: usize, item: usize) -> Pence
        requires bidder { bidder < max_bidders }
        requires item { item < self.now.items.count }
        ensures live { result.0 ≡ live self.now bidder item }
        ensures small { result.0 < word_limit }
    {
        let board = self.board;
        let s = self.starts[item];
        let weight = weight_in(board.weights[bidder * Auction::MAX_ITEMS + s]);
        if board.market.withdrawn[s] != 0 {
            return Pence(0);
        }
        weight
    }

    /// Whether an item is withdrawn.
    pub fn is_gone(&self, item: usize) -> bool
        requires { item < self.now.items.count }
        ensures { result ≡ withdrawn_at self.now item }
    {
        let board = self.board;
        board.market.withdrawn[self.starts[item]] != 0
    }

    /// How many bidders have arrived.
    pub fn bidders(&self) -> usize
        ensures { result ≡ self.now.market.arrived }
    {
        self.board.market.arrived as usize
    }

    /// How many items there are.
    pub fn items(&self) -> u64
        ensures items { result ≡ self.now.items.count }
        ensures within { result ≤ max_items }
    {
        self.board.items.count
    }

    /// How many places an item has.
    pub fn places(&self, item: usize) -> u8
        requires { item < max_items }
        ensures { result ≡ places_at self.now item }
    {
        self.board.items.places[item]
    }
}
