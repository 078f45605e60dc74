// A page read line by line: its rows, or its first bad line.
ghost use Rattle.std.specs.Prelude.{◌≡◌, true, false, ◌+◌, ◌≤◌, ◌<◌, MatchResult, MatchOption, length, take, drop};
ghost use Rattle.board.specs.Limits.{max_bidders};
ghost use Rattle.layout.specs.Limits.{line_bytes};
ghost use Rattle.layout.specs.Page.{breaks};
ghost use Rattle.layout.specs.Read.{got, bad, is_row, read_of};
ghost use Rattle.layout.specs.Seen.{RowFront};
ghost use Rattle.layout.specs.Stored.{row_lists, rows_stored};

use crate::column::{LINE_BYTES, read_row};
use crate::line::{HEADING, NEXT_HEADING, row_line};
use crate::row::{Row, fits};
use arrayvec::ArrayVec;
use board::record::Auction;
use thiserror::Error;

// The rows between two headings.
pub const ROWS_TO_HEADING: usize = 40;

// Byte 12, before each heading but the first.
pub const FEED: u8 = 12;

const _: () = prove!(NEXT_HEADING[0] == FEED);

// The rows of a page.
pub type Rows = ArrayVec<Row, { Auction::MAX_BIDDERS }>;

// The first bad line of a text that is no page, counted from 1.
#[derive(Clone, Copy, Debug, PartialEq, Eq, Error)]
#[error("line {0}")]
pub struct BadLine(pub u64);

#[tactic(auto, using(std::proofs::lemmas::Bool::Decides::nat_tests), unfolding(crate::specs::Page::breaks))]
pub(crate) fn breaks_after(i: u64) -> bool
    ensures { result ≡ breaks i }
{
    i != 0 && i % ROWS_TO_HEADING as u64 == 0
}

// Row n at the front of a text, with what follows it: what it reads is printed again and compared.
fn split_row(text: &[u8], n: u64) -> Option<(Row, &[u8])>
    requires { n ≤ max_bidders }
    ensures { MatchOption result (is_row n (take line_bytes text.now) ≡ false) (λ p. RowFront text.now n p.0 p.1.now) }
{
    let (line, rest) = text.split_at_checked(LINE_BYTES)?;
    let row = read_row(line);
    if !fits(row) || line != row_line(n, row).as_slice() {
        return None;
    }
    Some((row, rest))
}

// What a text is read as.
pub fn read(text: &[u8]) -> Result<Rows, BadLine>
    ensures { MatchResult result (λ rows. read_of text.now ≡ got rows.items) (λ e. read_of text.now ≡ bad e.0) }
{
    let Some(mut rest) = text.strip_prefix(HEADING) else {
        return Err(BadLine(1));
    };
    let mut rows = Rows::new();
    let mut lines: u64 = 1;
    while !rest.is_empty() {
        if rows.is_full() {
            return Err(BadLine(lines + 1));
        }
        let i = rows.len() as u64;
        if breaks_after(i) {
            let Some(headed) = rest.strip_prefix(NEXT_HEADING) else {
                return Err(BadLine(lines + 1));
            };
            rest = headed;
            lines += 1;
        }
        let Some((row, after)) = split_row(rest, i + 1) else {
            return Err(BadLine(lines + 1));
        };
        rows.push(row);
        lines += 1;
        rest = after;
    }
    Ok(rows)
}

// Rows into three lent lists: items, weights and gains.
pub fn store_rows(rows: &[Row], items: &mut [u64], weights: &mut [u64], gains: &mut [u64])
    requires items { length rows.now ≤ length items.old }
    requires weights { length rows.now ≤ length weights.old }
    requires gains { length rows.now ≤ length gains.old }
    ensures { row_lists items.new weights.new gains.new ≡ rows_stored (length rows.now) rows.now (row_lists items.old weights.old gains.old) }
{
    for (i, row) in rows.iter().enumerate() {
        items[i] = row.item;
        weights[i] = row.weight;
        gains[i] = row.gain;
    }
}
