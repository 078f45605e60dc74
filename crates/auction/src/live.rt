// A board that is known to be sound, with the floors of its prices: what a run of calls keeps, so that soundness is tested once.
ghost use Rattle.std.specs.Prelude.{◌≡◌, true, OnErr};
ghost use Rattle.supply.specs.Sound.{Sound};
ghost use Rattle.supply.specs.SoundTest.{sound_test};
ghost use Rattle.board.specs.Cells.{scaled_at};
ghost use Rattle.bidding.specs.Rule.{done};
ghost use Rattle.bidding.specs.Floors.{Floored};
ghost use Rattle.auction.specs.Arrive.{arrival, arrive_of};
ghost use Rattle.auction.specs.Withdraw.{withdrawal, withdraw_of};

use crate::arrive::arrive_in;
use crate::withdraw::withdraw_in;
use bidding::floors::Floors;
use board::record::Edge;
use refusals::Refusal;
use supply::record::Board;

// The board is lent for as long as the calls run, so that none copies it.
#[derive(Drop)]
pub struct Live<'a> {
    pub board: &'a mut Board,
    pub floors: Floors,
    ghost sound: { sound_test board.now ≡ true },
    ghost floored: { Floored board.now.market (scaled_at board.now.state.price) floors },
}

impl<'a> Live<'a> {
    // Of a sound board; its floors are made.
    pub fn new(board: &'a mut Board) -> Live<'a>
        requires { Sound board.old }
        ensures same_reference { result.board.ghost_name ≡ board.entry.ghost_name }
        ensures board { result.board.now ≡ board.old }
    {
        let floors = Floors::of(&board.market, &board.state.price);
        Live { board, floors }
    }

    // The same as `arrive`, with no test.
    #[tactic(auto, using(crate::proofs::Sounding::arrivals))]
    pub fn arrive(&mut self, edges: &[Edge]) -> Result<u64, Refusal>
        ensures same_reference { self.new.board.ghost_name ≡ self.old.board.ghost_name }
        ensures answers { done (arrival self.new.board.now result) ≡ arrive_of self.old.board.now edges.now }
        ensures err { OnErr result (self.new.board.now ≡ self.old.board.now) }
    {
        arrive_in(self.board, &mut self.floors, edges)
    }

    // The same as `withdraw`, with no test.
    #[tactic(auto, using(crate::proofs::Sounding::withdrawals))]
    pub fn withdraw(&mut self, items: &[u64]) -> Result<u64, Refusal>
        ensures same_reference { self.new.board.ghost_name ≡ self.old.board.ghost_name }
        ensures answers { done (withdrawal self.new.board.now result) ≡ withdraw_of self.old.board.now items.now }
        ensures err { OnErr result (self.new.board.now ≡ self.old.board.now) }
    {
        withdraw_in(self.board, &mut self.floors, items)
    }
}
