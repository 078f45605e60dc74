#![tactic(auto)]

// A text from standard input, as the programs read it.
ghost use Rattle.std.specs.Prelude.{◌<◌, length, take, MatchResult, IfOk};
ghost use Rattle.std.specs.Io.KnownBytes.{Consumes, IsAtEnd};
ghost use Rattle.std.specs.Counts.{IsPrefixLen};

use board::record::Auction;
use std::io::Read;
use thiserror::Error;

// One byte more than a text may have: so many show that it is too long.
pub const MAX_READ: usize = Auction::MAX_TEXT + 1;

// A read failed, after so many bytes were read.
#[derive(Clone, Copy, Debug, PartialEq, Eq, Error)]
#[error("input cannot be read after {bytes} bytes")]
pub struct Unread {
    pub bytes: usize,
}

// Reads until buf is full or the input ends. A read that gives 0 bytes is the end; one that fails gives none, and is told.
// Of a reader whose bytes are known, those counted are its first ones, and all where none failed and there is room to spare.
pub fn read_text<R: Read>(reader: &mut R, buf: &mut [u8]) -> Result<usize, Unread>
    ensures counted { MatchResult result (λ n. IsPrefixLen n buf.new) (λ e. IsPrefixLen e.bytes buf.new) }
    ensures in_order { MatchResult result (λ n. Consumes (R.remaining reader.old) (R.remaining reader.new) (take n buf.new)) (λ e. Consumes (R.remaining reader.old) (R.remaining reader.new) (take e.bytes buf.new)) }
    ensures to_the_end { IfOk result (λ n. n < length buf.new → IsAtEnd (R.remaining reader.new)) }
{
    let mut n: usize = 0;
    // Counted by hand: a read gives as many bytes as it likes.
    while n < buf.len() {
        let Ok(more) = reader.read(&mut buf[n..]) else {
            return Err(Unread { bytes: n });
        };
        if more == 0 {
            return Ok(n);
        }
        n += more;
    }
    Ok(n)
}
