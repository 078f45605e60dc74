// What a call answers, in numbers: enums do not cross to another language. Each function here tells an answer so. They are functions, and no `From`:
// a result and `Told` are types of other crates, and one form serves all answers.
ghost use Rattle.std.specs.Prelude.{◌≡◌};
ghost use Rattle.refusals.specs.Told.{served, refused, refused_at};
ghost use Rattle.supply.specs.Opening.{answered};
ghost use Rattle.auction.specs.Arrive.{arrival, arrived_told};
ghost use Rattle.auction.specs.Withdraw.{withdrawal, withdrawn_told};
ghost use Rattle.auction.specs.ReadOut.{read_out_told};
ghost use Rattle.hungarian.specs.Exact.{exact_told};
ghost use Rattle.certificate.specs.Check.{checked_told};
ghost use Rattle.comparison.specs.Compare.{order_number, compared_told};
ghost use Rattle.counting.specs.Call.{counted_told};
ghost use Rattle.replay.specs.TextDemand1.{ending_told};
ghost use Rattle.history.specs.Demand1.{planned_told};
ghost use Rattle.page.specs.Writing.{written_told};
ghost use Rattle.page.specs.Reading.{read_told};
ghost use Rattle.exports.specs.Answers.{with_board, open_answer, arrival_answer, withdrawal_answer, replay_answer};

use board::units::{Pence, Scaled};
use certificate::Totals;
use comparison::Comparison;
use refusals::{AtLine, Refusal, Told};
use replay::Replayed;
use std::cmp::Ordering;
use supply::opening::empty_board;
use supply::record::Board;

// What a call answers in numbers, beside a board.
#[repr(C)]
#[derive(Clone, Copy)]
pub struct Answer {
    pub board: Board,
    pub number: u64,
    pub place: u64,
    pub value: u64,
}

// The call served.
fn serving(value: u64) -> Told
    ensures { result ≡ served value }
{
    Told {
        number: 0,
        place: 0,
        value,
    }
}

// A text refused at a line: the place is the line.
fn stopping(stop: AtLine, value: u64) -> Told
    ensures { result ≡ refused_at stop.refusal stop.line value }
{
    Told {
        number: stop.refusal.number(),
        place: stop.line,
        value,
    }
}

// The call refused.
fn refusing(refusal: Refusal) -> Told
    ensures { result ≡ refused refusal }
{
    Told {
        number: refusal.number(),
        place: refusal.place(),
        value: 0,
    }
}

// What is told, beside a board.
fn beside(board: Board, told: Told) -> Answer
    ensures { result ≡ with_board board told }
{
    Answer {
        board,
        number: told.number,
        place: told.place,
        value: told.value,
    }
}

// An opened board. Beside a refusal stands a board that is all 0.
pub(crate) fn open_answer(opened: Result<Board, Refusal>) -> Answer
    ensures { result ≡ open_answer (answered opened) }
{
    match opened {
        Ok(board) => beside(board, serving(0)),
        Err(refusal) => beside(empty_board(0, 0, &[]), refusing(refusal)),
    }
}

// A number: of bids, of bytes or of rows. A read-out and a weight are told by functions of their own below: one for all three would need a trait that says
// what each value is told as, which is longer than they are.
pub(crate) fn number_told(answer: Result<u64, Refusal>) -> Told
    ensures arrived { result ≡ arrived_told answer }
    ensures withdrawn { result ≡ withdrawn_told answer }
    ensures written { result ≡ written_told answer }
    ensures read { result ≡ read_told answer }
{
    match answer {
        Ok(number) => serving(number),
        Err(refusal) => refusing(refusal),
    }
}

// A board after an arrival or a withdrawal.
pub(crate) fn bids_answer(board: Board, bids: Result<u64, Refusal>) -> Answer
    ensures arrival { result ≡ arrival_answer (arrival board bids) }
    ensures withdrawal { result ≡ withdrawal_answer (withdrawal board bids) }
{
    beside(board, number_told(bids))
}

// A read-out.
pub(crate) fn read_out_told(answer: Result<(), Refusal>) -> Told
    ensures { result ≡ read_out_told answer }
{
    match answer {
        Ok(()) => serving(0),
        Err(refusal) => refusing(refusal),
    }
}

// A weight: what the exact level and the slow count answer.
pub(crate) fn weight_told(answer: Result<Pence, Refusal>) -> Told
    ensures exact { result ≡ exact_told answer }
    ensures counted { result ≡ counted_told answer }
{
    match answer {
        Ok(weight) => serving(weight.0),
        Err(refusal) => refusing(refusal),
    }
}

// What the check answers.
pub(crate) fn totals_of(answer: Result<(Pence, Scaled), Refusal>) -> Totals
    ensures { result ≡ checked_told answer }
{
    match answer {
        Ok((weight, sum)) => Totals {
            number: 0,
            place: 0,
            weight: weight.0,
            total: sum.0,
        },
        Err(refusal) => {
            let refused = refusing(refusal);
            Totals {
                number: refused.number,
                place: refused.place,
                weight: 0,
                total: 0,
            }
        }
    }
}

// Where a plan stands, for C: 1, 2 or 3.
fn order_number(order: Ordering) -> u64
    ensures { result ≡ order_number order }
{
    match order {
        Ordering::Less => 1,
        Ordering::Equal => 2,
        Ordering::Greater => 3,
    }
}

// What the comparison answers.
pub(crate) fn comparison_of(answer: Result<(i64, Ordering), Refusal>) -> Comparison
    ensures { result ≡ compared_told answer }
{
    match answer {
        Ok((difference, order)) => Comparison {
            number: 0,
            place: 0,
            difference,
            order: order_number(order),
        },
        Err(refusal) => {
            let refused = refusing(refusal);
            Comparison {
                number: refused.number,
                place: refused.place,
                difference: 0,
                order: 0,
            }
        }
    }
}

// How a replay ended, and the bids so far.
fn ending_told(answer: Result<(), AtLine>, bids: u64) -> Told
    ensures { result ≡ ending_told answer bids }
{
    match answer {
        Ok(()) => serving(bids),
        Err(stop) => stopping(stop, bids),
    }
}

// A replayed text.
pub(crate) fn replay_answer(replayed: Replayed) -> Answer
    ensures { result ≡ replay_answer replayed }
{
    beside(replayed.board, ending_told(replayed.answer, replayed.bids))
}

// A written text.
pub(crate) fn planned_told(answer: Result<u64, AtLine>) -> Told
    ensures { result ≡ planned_told answer }
{
    match answer {
        Ok(bytes) => serving(bytes),
        Err(stop) => stopping(stop, 0),
    }
}
