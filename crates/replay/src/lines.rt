// A line of a history text, carried out on a board that is known to be sound.
ghost use Rattle.std.specs.Prelude.{◌≡◌, ℕ, suc, ◌+◌, ◌&&◌, ◌≤◌, eqb, length, take, Ok, Err, MatchResult, OnErr, IfErr, IfOk};
ghost use Rattle.text.specs.Line.{bad_line, line_at};
ghost use Rattle.refusals.specs.declared.Refusal.{Refusal};
ghost use Rattle.board.specs.Limits.{max_edges, max_text};
ghost use Rattle.bidding.specs.Rule.{done};
ghost use Rattle.replay.specs.Replay.{pairs_of, command_of, finished, carry_out, lines_from};
ghost use Rattle.replay.specs.ReplayLaws.{replayed, after_line, ReachedBy};

use arrayvec::ArrayVec;
use auction::edges::enough;
use auction::live::Live;
use board::record::{Auction, Edge};
use board::units::Pence;
use refusals::{AtLine, Refusal};
use supply::record::Board;
use text::line::{KEPT, Line, line_at};

// Whether a line is a record of a kind: it has the kind's letter, a byte of the text, and `fits` says that it has as many numbers as the kind asks for.
pub(crate) fn is_record(letter: u8, kind: u8, fits: bool) -> bool
    ensures { result ≡ eqb letter kind && fits }
{
    letter == kind && fits
}

// A line's first pairs of numbers as edges: "kettle, worth, kettle, worth and so on". No one function with auction's `edges_of`, whose pairs are two lists.
fn pairs_of(numbers: &[u64; KEPT], count: usize) -> ArrayVec<Edge, { Auction::MAX_EDGES }>
    requires { count ≤ max_edges }
    ensures { result.items ≡ pairs_of numbers.now count }
{
    let mut edges = ArrayVec::new();
    for i in 0..count {
        edges.push(Edge {
            item: numbers[2 * i],
            weight: Pence(numbers[2 * i + 1]),
        });
    }
    edges
}

// A call's answer, its refusal told at a line.
pub(crate) fn told_at<T: Drop>(answer: Result<T, Refusal>, line: u64) -> Result<T, AtLine>
    ensures { MatchResult answer (λ x. result ≡ Ok x) (λ r. result ≡ Err (record { refusal = r; line = line })) }
{
    answer.map_err(|refusal| AtLine { refusal, line })
}

// Line n, after those that open the board: "A line's form (14) is tested before its meaning". A further `K`, and a later `P`, is not of the form.
// The number of bids made, or the refusal.
fn carry_out(live: &mut Live<'_>, line: &Line, n: u64) -> Result<u64, AtLine>
    ensures same_reference { live.new.board.ghost_name ≡ live.old.board.ghost_name }
    ensures answers { (bids : ℕ) → done (after_line bids live.new.board.now result) ≡ carry_out finished n live.old.board.now bids (command_of line.now) }
{
    if is_record(line.letter, b'A', line.count % 2 == 0) {
        let edges = pairs_of(&line.numbers, enough(line.count / 2));
        return told_at(live.arrive(edges.as_slice()), n);
    }
    if is_record(line.letter, b'W', 0 < line.count) {
        return told_at(live.withdraw(&line.numbers[..enough(line.count)]), n);
    }
    Err(malformed(n))
}

// The refusal of line n where it is not of the form.
pub(crate) fn malformed(n: u64) -> AtLine
    ensures { result ≡ record { refusal = Refusal.Line n; line = n } }
{
    AtLine {
        refusal: Refusal::Line(n),
        line: n,
    }
}

// Line n, at a position.
pub(crate) fn read_line(text: &[u8], at: usize, n: u64) -> Result<Line, AtLine>
    ensures ok { IfOk result (λ line. line ≡ line_at text.now at) }
    ensures none { OnErr result (line_at text.now at ≡ bad_line) }
    ensures err { IfErr result (λ s. s ≡ record { refusal = Refusal.Line n; line = n }) }
{
    let Some(line) = line_at(text, at) else {
        return Err(malformed(n));
    };
    Ok(line)
}

// Where a text goes on: the position of the next line, and its number.
#[derive(Clone, Copy)]
pub(crate) struct Next {
    pub(crate) at: usize,
    pub(crate) line: u64,
}

// The lines from a position on, carried out one by one up to a refusal.
fn carry_out_lines(
    text: &[u8],
    next: Next,
    live: &mut Live<'_>,
    bids: &mut u64,
) -> Result<(), AtLine>
    requires text { length text.now ≤ max_text }
    requires start { next.at ≤ length text.now }
    requires first { next.line ≤ max_text + 2 }
    requires reached { ReachedBy live.old.board.now bids.old }
    requires none { bids.old ≡ 0 }
    ensures same_reference { live.new.board.ghost_name ≡ live.old.board.ghost_name }
    ensures answers { done (replayed live.new.board.now bids.new result) ≡ lines_from (suc (length text.now)) text.now next.at next.line live.old.board.now 0 }
{
    let mut at = next.at;
    let mut n = next.line;
    // Counted by hand: a line says where the next one starts.
    while at < text.len() {
        let line = read_line(text, at, n)?;
        *bids += carry_out(live, &line, n)?;
        at = line.next;
        n += 1;
    }
    Ok(())
}

// The lines after those that open the board.
pub(crate) fn replay_lines(
    text: &[u8],
    next: Next,
    board: &mut Board,
    bids: &mut u64,
) -> Result<(), AtLine>
    requires text { length text.now ≤ max_text }
    requires start { next.at ≤ length text.now }
    requires first { next.line ≤ max_text + 2 }
    requires reached { ReachedBy board.old 0 }
    requires none { bids.old ≡ 0 }
    ensures { done (replayed board.new bids.new result) ≡ lines_from (suc (length text.now)) text.now next.at next.line board.old 0 }
{
    let mut live = Live::new(board);
    carry_out_lines(text, next, &mut live, bids)
}
