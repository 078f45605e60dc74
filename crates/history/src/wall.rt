// The page of the board that a history text reaches, or the line of its refusal.
ghost use Rattle.std.specs.Prelude.{◌≡◌};
ghost use Rattle.supply.specs.Sound.{Sound};
ghost use Rattle.page.specs.Rows.{board_page};
ghost use Rattle.history.specs.Plan.{planned, fitted, AtFront};
ghost use Rattle.history.specs.Wall.{wall_of, WallWritten};

use crate::planning::{MAX_OUTPUT, fit_put, put_refusal};
use page::writing::write_page;
use refusals::AtLine;
use replay::{Replayed, replay_on};
use supply::record::Board;

// The page of a sound board, at the front of a list that is never too short.
fn put_board(board: &Board, out: &mut [u8; MAX_OUTPUT]) -> usize
    requires { Sound board.now }
    ensures { AtFront (board_page board.now) out.old out.new result }
{
    let Ok(n) = write_page(board, out) else {
        return 0;
    };
    n as usize
}

// Replays a text and writes the page of its board, or the line of its refusal; answers how many bytes that is. Further cells are as they were.
pub fn wall_text(text: &[u8], out: &mut [u8; MAX_OUTPUT]) -> usize
    ensures { WallWritten text.now out.old out.new result }
{
    let mut replayed = Replayed::blank();
    replay_on(text, &mut replayed);
    match replayed.answer {
        Ok(()) => put_board(&replayed.board, out),
        Err(stop) => put_refusal(stop.refusal.number(), stop.line, out),
    }
}

// The same where there is room for all of it, in a list of any length.
pub fn page_text(text: &[u8], out: &mut [u8]) -> Result<u64, AtLine>
    ensures { planned result out.new ≡ fitted (wall_of text.now) out.old }
{
    fit_put(out, |page| wall_text(text, page))
}
