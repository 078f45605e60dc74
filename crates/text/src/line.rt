// The line at a position of a text: a letter and its numbers.
ghost use Rattle.std.specs.Prelude.{◌≡◌, ◌≤◌, IfSome, unwrap_or, length, set};
ghost use Rattle.text.specs.Limits.{kept};
ghost use Rattle.text.specs.Line.{bad_line, fields_at, line_with, line_at};

use crate::reader::Reader;
use crate::{NEWLINE, scan};

// The numbers of a line that are kept: 65 pairs decide every refusal.
pub const KEPT: usize = 130;

// A line: its letter, the position of the next line, the number of all its fields, and the first
// KEPT numbers, 0 where there are fewer. No vector of the numbers: `count` goes on past those kept.
#[derive(Clone, Copy)]
pub struct Line {
    pub letter: u8,
    pub next: usize,
    pub count: usize,
    pub numbers: [u64; KEPT],
}

// A letter with the fields from a position on, to the end of the line: one reader moves forward,
// field by field.
fn fields_at(text: &[u8], at: usize, letter: u8) -> Option<Line>
    ensures line { unwrap_or result bad_line ≡ line_with letter (fields_at text.now at) }
    ensures letter { IfSome result (λ line. line.letter ≡ letter) }
{
    let mut numbers = [0u64; KEPT];
    let mut count: usize = 0;
    let mut reader = Reader::new(text, at);
    while let Some(number) = reader.next_field() {
        if count < KEPT {
            numbers[count] = number;
        }
        count += 1;
    }
    if scan::byte_at(text, reader.at) != NEWLINE {
        return None;
    }
    Some(Line {
        letter,
        next: reader.at + 1,
        count,
        numbers,
    })
}

// The line at a position.
#[tactic(auto, using(std::proofs::lemmas::Bool::Decides::nat_tests), unfolding(crate::specs::Line::line_at))]
pub fn line_at(text: &[u8], at: usize) -> Option<Line>
    ensures line { unwrap_or result bad_line ≡ line_at text.now at }
    ensures letter { IfSome result (λ line. 65 ≤ line.letter) }
{
    let letter = scan::byte_at(text, at);
    if !letter.is_ascii_uppercase() {
        return None;
    }
    fields_at(text, at + 1, letter)
}
