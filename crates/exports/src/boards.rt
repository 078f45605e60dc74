// The calls that make a board, change it and read it.
ghost use Rattle.std.specs.Prelude.{◌≡◌};
ghost use Rattle.supply.specs.SoundTest.{sound_test};
ghost use Rattle.bidding.specs.Rule.{done};
ghost use Rattle.auction.specs.Edges.{buffer_edges};
ghost use Rattle.supply.specs.Opening.{open_of};
ghost use Rattle.auction.specs.Arrive.{arrive_of};
ghost use Rattle.auction.specs.Withdraw.{withdraw_of};
ghost use Rattle.board.specs.Lent.{lists};
ghost use Rattle.auction.specs.ReadOut.{read_out_of};
ghost use Rattle.exports.specs.Answers.{answered, open_answer, arrival_answer, withdrawal_answer, told_lists, read_out_answer};

use crate::answers::{Answer, bids_answer, open_answer, read_out_told};
use auction::arrive::{arrive, arrive_buffer};
use auction::edges::EdgeBuffer;
use auction::read_out::read_out;
use auction::withdraw::withdraw;
use board::record::Edge;
use refusals::Told;
use supply::record::Board;

// Opens a board of so many items with slack p/q, and as many places for each as the counts say. The value is 0.
#[unsafe(no_mangle)]
pub extern "C" fn noughtelm_open(items: u64, p: u64, q: u64, counts: &[u64]) -> Answer
    ensures { result ≡ open_answer (open_of items p q counts.now) }
{
    open_answer(Board::open(items, p, q, counts))
}

// A new bidder arrives with the edges of a slice of any length. The value is the number of bids.
#[unsafe(no_mangle)]
pub extern "C" fn noughtelm_arrive(mut board: Board, edges: &[Edge]) -> Answer
    ensures { done result ≡ answered arrival_answer (arrive_of board edges.now) }
{
    let bids = arrive(&mut board, edges);
    bids_answer(board, bids)
}

// The same with the edges of a buffer.
#[unsafe(no_mangle)]
pub extern "C" fn noughtelm_arrive_buffer(mut board: Board, buffer: EdgeBuffer) -> Answer
    ensures { done result ≡ answered arrival_answer (arrive_of board (buffer_edges buffer)) }
{
    let bids = arrive_buffer(&mut board, &buffer);
    bids_answer(board, bids)
}

// The items of a slice of any length are withdrawn. The value is the number of bids.
#[unsafe(no_mangle)]
pub extern "C" fn noughtelm_withdraw(mut board: Board, items: &[u64]) -> Answer
    ensures { done result ≡ answered withdrawal_answer (withdraw_of board items.now) }
{
    let bids = withdraw(&mut board, items);
    bids_answer(board, bids)
}

// Whether a board is sound.
#[unsafe(no_mangle)]
pub extern "C" fn noughtelm_is_sound(board: Board) -> bool
    ensures { result ≡ sound_test board }
{
    board.is_sound()
}

// Writes the matching, the prices and the gains into three lent lists. The value is 0.
#[unsafe(no_mangle)]
pub extern "C" fn noughtelm_read_out(
    board: Board,
    plan: &mut [u64],
    prices: &mut [u64],
    gains: &mut [u64],
) -> Told
    ensures { told_lists result (lists plan.new prices.new gains.new) ≡ read_out_answer (read_out_of board (lists plan.old prices.old gains.old)) }
{
    read_out_told(read_out(&board, plan, prices, gains))
}
