#![tactic(auto)]

// The replay of a history text: "each line is tested and carried out before the next". The board stays sound from line to line and is not tested at
// every one.
mod lines; // a line carried out
mod place_lines; // the lines that say how many places an item has

ghost use Rattle.std.specs.Prelude.{◌≡◌, [], Ok};
ghost use Rattle.supply.specs.Opening.{opened};
ghost use Rattle.bidding.specs.Rule.{done};
ghost use Rattle.replay.specs.Replay.{replay_of};
ghost use Rattle.replay.specs.ReplayLaws.{replayed};

use crate::lines::{is_record, malformed, read_line, replay_lines, told_at};
use crate::place_lines::{Draft, pass_places};
use board::record::Auction;
use refusals::{AtLine, Refusal};
use supply::opening::empty_board;
use supply::record::Board;

// The board that the replay came to, the bids in all, and the refusal where one ended it.
#[derive(Clone, Copy)]
pub struct Replayed {
    pub board: Board,
    pub bids: u64,
    pub answer: Result<(), AtLine>,
}

impl Replayed {
    // Before any line: a board that is all 0, and no bid.
    pub fn blank() -> Self
        ensures { result ≡ replayed (opened 0 0 []) 0 (Ok tt) }
    {
        Replayed {
            board: empty_board(0, 0, &[]),
            bids: 0,
            answer: Ok(()),
        }
    }
}

// The whole text, on a board that is all 0: "15 comes before all else", "First line `K`, kettles, p, q".
fn carry_out_text(text: &[u8], board: &mut Board, bids: &mut u64) -> Result<(), AtLine>
    requires blank { board.old ≡ opened 0 0 [] }
    requires none { bids.old ≡ 0 }
    ensures { done (replayed board.new bids.new result) ≡ replay_of text.now }
{
    if text.len() > Auction::MAX_TEXT {
        return Err(AtLine {
            refusal: Refusal::Long,
            line: 0,
        });
    }
    let line = read_line(text, 0, 1)?;
    if !is_record(line.letter, b'K', line.count == 3) {
        return Err(malformed(1));
    }
    let items = line.numbers[0];
    let p = line.numbers[1];
    let q = line.numbers[2];
    let mut opening = told_at(Draft::new(items, p, q), 1)?;
    let passed = pass_places(text, line.next, &mut opening);
    opening.open(board);
    replay_lines(text, passed?, board, bids)
}

// Replays a text onto what the caller lends, on which nothing has happened: no board is copied.
pub fn replay_on(text: &[u8], into: &mut Replayed)
    requires blank { into.old ≡ replayed (opened 0 0 []) 0 (Ok tt) }
    ensures { done into.new ≡ replay_of text.now }
{
    into.answer = carry_out_text(text, &mut into.board, &mut into.bids);
}

// Replays a text.
pub fn replay(text: &[u8]) -> Replayed
    ensures { done result ≡ replay_of text.now }
{
    let mut replayed = Replayed::blank();
    replay_on(text, &mut replayed);
    replayed
}
