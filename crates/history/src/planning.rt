// The plan of a history text, written to a lent list: all of it or nothing.
ghost use Rattle.std.specs.Fn.{FnOnceReturnsAtMut};
ghost use Rattle.std.specs.Prelude.{List, ℕ, replicate, ◌≡◌, ◌++◌, ◌≤◌, length, take, drop};
ghost use Rattle.text.specs.Limits.{max_line};
ghost use Rattle.text.specs.Print.{Put};
ghost use Rattle.bidding.specs.Rule.{done};
ghost use Rattle.supply.specs.Sound.{Sound};
ghost use Rattle.history.specs.Limits.{max_output};
ghost use Rattle.history.specs.Output.{output_of, refusal_line};
ghost use Rattle.history.specs.Plan.{planned, fitted, plan_of, sheet_of, SheetWritten};

use crate::output::{put_columns, put_last};
use crate::reading::{greatest, total_of};
use board::lent::columns_of;
use board::record::Auction;
use refusals::{AtLine, Refusal};
use replay::{Replayed, replay_on};
use supply::columns::read_by_item;
use supply::record::Board;
use text::print::{MAX_LINE, Out};

// No output is longer: a line for each bidder and each item, and two more.
pub const MAX_OUTPUT: usize = MAX_LINE * (Auction::MAX_BIDDERS + Auction::MAX_ITEMS + 2);

// A page's first n bytes, written where there is room for all of them. The page is handed whole, so that the part is taken once.
fn fit(page: &[u8; MAX_OUTPUT], n: usize, out: &mut [u8]) -> Result<u64, AtLine>
    requires { n ≤ length page.now }
    ensures { planned result out.new ≡ fitted (take n page.now) out.old }
{
    if out.len() < n {
        return Err(AtLine {
            refusal: Refusal::Short,
            line: 0,
        });
    }
    out[..n].copy_from_slice(&page[..n]);
    Ok(n as u64)
}

// What is put at the front of a page, written where there is room for all of it.
pub(crate) fn fit_put<F: FnOnce(&mut [u8; MAX_OUTPUT]) -> usize>(
    out: &mut [u8],
    put: F,
) -> Result<u64, AtLine>
    requires callable { F.IsAlwaysCallable put }
    requires few { (page after : List ℕ) (n : ℕ) → FnOnceReturnsAtMut F.FnOnce put page n after → n ≤ max_output }
    ensures { (after : List ℕ) × (n : ℕ) × FnOnceReturnsAtMut F.FnOnce put (replicate max_output 0) n after × (planned result out.new ≡ fitted (take n after) out.old) }
{
    let mut page = [0u8; MAX_OUTPUT];
    let n = put(&mut page);
    fit(&page, n, out)
}

// A board's output, at the front of a page. That the board is sound is asked here and of what calls it:
// `Replayed`, of which the statements speak, holds any board. Prices plus gains, place by place, are q + p times the weight of the plan.
fn render(board: &Board, bids: u64, page: &mut [u8]) -> usize
    requires { Sound board.now }
    ensures put { Put page.old page.new 0 (output_of board.now bids) result }
    ensures few { result ≤ max_output }
{
    let bidders = board.market.arrived as usize;
    let places = board.market.items as usize;
    let by_place = columns_of(board.state, places);
    let total = total_of(by_place, bidders, places);
    let weight = board.market.slack.weight_of(total);
    let best = greatest(board);
    let columns = read_by_item(by_place, board.items, bidders);
    let mut out = Out::new(page);
    put_columns(&mut out, columns, board.items, board.market);
    put_last(&mut out, weight, total, bids, best);
    out.at
}

// The output of a board, where there is room for it.
fn write_output(board: &Board, bids: u64, out: &mut [u8]) -> Result<u64, AtLine>
    requires { Sound board.now }
    ensures { planned result out.new ≡ fitted (output_of board.now bids) out.old }
{
    fit_put(out, |page| render(board, bids, page))
}

// Replays a text and writes its plan.
pub fn plan_text(text: &[u8], out: &mut [u8]) -> Result<u64, AtLine>
    ensures { done (planned result out.new) ≡ plan_of text.now out.old }
{
    let mut replayed = Replayed::blank();
    replay_on(text, &mut replayed);
    replayed.answer?;
    write_output(&replayed.board, replayed.bids, out)
}

// "`R`, number, line", at the front of a page.
pub(crate) fn put_refusal(number: u64, line: u64, page: &mut [u8]) -> usize
    ensures put { Put page.old page.new 0 (refusal_line number line) result }
    ensures few { result ≤ max_line }
{
    let mut out = Out::new(page);
    out.put_line(b'R', &[number, line]);
    out.at
}

// Writes the line that a refused text prints. Its number is handed in as C has it.
pub fn refusal_line(number: u64, line: u64, out: &mut [u8]) -> Result<u64, AtLine>
    ensures { planned result out.new ≡ fitted (refusal_line number line) out.old }
{
    fit_put(out, |page| put_refusal(number, line, page))
}

// Writes what the program prints, and answers how many bytes that is; further cells are as they were.
// wall_text is this but for one call. It needs a sound board, which only that arm has: said of a closure, that takes more words than the rest.
pub fn sheet_text(text: &[u8], out: &mut [u8; MAX_OUTPUT]) -> usize
    ensures { SheetWritten text.now out.old out.new result }
{
    let mut replayed = Replayed::blank();
    replay_on(text, &mut replayed);
    match replayed.answer {
        Ok(()) => render(&replayed.board, replayed.bids, out),
        Err(stop) => put_refusal(stop.refusal.number(), stop.line, out),
    }
}

// The same where there is room for all of it, in a list of any length.
pub fn print_text(text: &[u8], out: &mut [u8]) -> Result<u64, AtLine>
    ensures { planned result out.new ≡ fitted (sheet_of text.now) out.old }
{
    fit_put(out, |page| sheet_text(text, page))
}
