// The lines that say how many places an item has: "After `K`, lines `P`, kettle, places may follow".
ghost use Rattle.std.specs.Prelude.{◌≡◌, ◌-◌, ◌+◌, ◌≤◌, [], Ok, length, set, take, OnOk, OnErr, IfOk, IfErr};
ghost use Rattle.refusals.specs.Demand1.{first_of};
ghost use Rattle.board.specs.Limits.{max_items, max_text};
ghost use Rattle.supply.specs.Opening.{opened, open_checks};
ghost use Rattle.replay.specs.Counted.{Counted, others_from, placing_from};
ghost use Rattle.replay.specs.Replay.{place_checks, at_line, ones, stopped};

use crate::lines::{Next, is_record};
use board::ranges::is_within;
use board::record::Auction;
use refusals::{AtLine, Refusal};
use supply::opening::{open_blank, open_verdict};
use supply::record::Board;
use text::line::line_at;

// The line at which a refusal is told: too many places in all at line 1, any other where it is met.
fn at_line(refusal: Refusal, n: u64) -> u64
    ensures { result ≡ at_line refusal n }
{
    match refusal {
        Refusal::Places(0) => 1,
        _ => n,
    }
}

// A board on its way to be opened: how many items it has, the slack p/q, and how many places each item has. An opening with them serves.
#[derive(Clone, Copy)]
pub(crate) struct Draft {
    items: u64,
    p: u64,
    q: u64,
    // The item of the line before, 0 for none, as `place_checks` has it: no item is below 0, so that one test serves both.
    low: u64,
    // The first `items` count, as `Counted` has it.
    counts: [u64; Auction::MAX_ITEMS],
    ghost counted: { Counted items p q (take items counts) },
}

impl Draft {
    // With one place for each item.
    #[tactic(auto, unfolding(supply::specs::Opening::open_checks, refusals::specs::Demand1::first_of))]
    pub(crate) fn new(items: u64, p: u64, q: u64) -> Result<Self, Refusal>
        ensures slack { IfOk result (λ o. (o.items ≡ items) × (o.p ≡ p) × (o.q ≡ q)) }
        ensures counts { IfOk result (λ o. (o.low ≡ 0) × (take items o.counts ≡ ones items)) }
        ensures err { IfErr result (λ r. first_of (open_checks items p q (ones items)) ≡ Err r) }
    {
        if !is_within(Auction::MAX_ITEMS as u64, items) {
            return Err(Refusal::Count);
        }
        let counts = [1u64; Auction::MAX_ITEMS];
        open_verdict(items, p, q, &counts[..items as usize])?;
        Ok(Draft {
            items,
            p,
            q,
            low: 0,
            counts,
        })
    }

    // "A `P` line's kettle can meet 4, then 7, before 16". One count is another, unless no board is opened with it.
    pub(crate) fn place(&mut self, item: u64, places: u64) -> Result<(), Refusal>
        ensures verdict { result ≡ first_of (place_checks self.old.items self.old.p self.old.q self.old.low (take self.old.items self.old.counts) item places) }
        ensures items { self.new.items ≡ self.old.items }
        ensures slack { (self.new.p ≡ self.old.p) × (self.new.q ≡ self.old.q) }
        ensures low { OnOk result (self.new.low ≡ item) }
        ensures counts { OnOk result (take self.old.items self.new.counts ≡ set (take self.old.items self.old.counts) (item - 1) places) }
        ensures err { OnErr result (self.new.counts ≡ self.old.counts) }
    {
        let items = self.items;
        if !is_within(items, item) {
            return Err(Refusal::Unknown(0));
        }
        if item <= self.low {
            return Err(Refusal::Order(0));
        }
        let mut more = self.counts;
        more[(item - 1) as usize] = places;
        open_verdict(items, self.p, self.q, &more[..items as usize])?;
        self.counts = more;
        self.low = item;
        Ok(())
    }

    // The board that is opened with them, where there was one that is all 0.
    pub(crate) fn open(&self, board: &mut Board)
        requires blank { board.old ≡ opened 0 0 [] }
        ensures { board.new ≡ opened self.now.p self.now.q (take self.now.items self.now.counts) }
    {
        open_blank(board, self.p, self.q, &self.counts[..self.items as usize]);
    }
}

// The lines after the first, from a position on, as long as they are of places: each adds a count. What comes next are the other lines.
pub(crate) fn pass_places(text: &[u8], start: usize, opening: &mut Draft) -> Result<Next, AtLine>
    requires text { length text.now ≤ max_text }
    requires start { start ≤ length text.now }
    requires low { opening.old.low ≡ 0 }
    requires counts { take opening.old.items opening.old.counts ≡ ones opening.old.items }
    ensures inside { IfOk result (λ next. (next.at ≤ length text.now) × (next.line ≤ max_text + 2)) }
    ensures ok { IfOk result (λ next. others_from text.now next.at next.line opening.new.p opening.new.q (take opening.new.items opening.new.counts) ≡ placing_from text.now start opening.old.items opening.old.p opening.old.q) }
    ensures err { IfErr result (λ s. stopped (opened opening.new.p opening.new.q (take opening.new.items opening.new.counts)) 0 s.refusal s.line ≡ placing_from text.now start opening.old.items opening.old.p opening.old.q) }
{
    let mut at = start;
    let mut n: u64 = 2;
    // Counted by hand: a line says where the next one starts.
    while at < text.len() {
        let Some(line) = line_at(text, at) else {
            return Ok(Next { at, line: n });
        };
        if !is_record(line.letter, b'P', line.count == 2) {
            return Ok(Next { at, line: n });
        }
        if let Err(refusal) = opening.place(line.numbers[0], line.numbers[1]) {
            return Err(AtLine {
                refusal,
                line: at_line(refusal, n),
            });
        }
        at = line.next;
        n += 1;
    }
    Ok(Next { at, line: n })
}
