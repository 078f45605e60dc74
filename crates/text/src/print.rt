// Numbers and lines, written to a lent list as far as it goes. The position moves on also past the end, so that a list of one cell serves to count.
ghost use Rattle.std.specs.Prelude.{◌≡◌, [], ◌∷◌, ◌+◌, ◌^◌, ◌<◌, ◌≤◌, length};
ghost use Rattle.text.specs.Bytes.{tab};
ghost use Rattle.text.specs.Limits.{wide_digits, line_fields, max_at, max_line};
ghost use Rattle.text.specs.Print.{decimal, line_of};

use crate::{NEWLINE, TAB};

// The last position at which `put_line` writes.
pub const MAX_AT: usize = 1000000;

// The most fields of a line that is written.
pub const LINE_FIELDS: usize = 3;

// The most digits of a number.
const WIDE_DIGITS: usize = 20;

// The most bytes of a line that is written: a letter, a tab and a number for each field, a newline.
pub const MAX_LINE: usize = 1 + LINE_FIELDS * (1 + WIDE_DIGITS) + 1;

pub fn digit(d: u64) -> u8
    requires { d < 10 }
    ensures { result ≡ 48 + d }
{
    b'0' + d as u8
}

// A lent list, and the position of the next byte.
#[derive(Drop)]
pub struct Out<'a> {
    pub bytes: &'a mut [u8],
    pub at: usize,
    ghost in_range: { at < 2 ^ 64 },
}

impl<'a> Out<'a> {
    ghost use Rattle.text.specs.Out.{Puts};

    pub fn new(bytes: &'a mut [u8]) -> Out<'a>
        ensures same_reference { result.bytes.ghost_name ≡ bytes.entry.ghost_name }
        ensures bytes { result.bytes.now ≡ bytes.old }
        ensures at { result.at ≡ 0 }
    {
        Out { bytes, at: 0 }
    }

    pub fn put(&mut self, byte: u8)
        ensures { Puts self.old self.new (byte ∷ []) }
    {
        if self.at < self.bytes.len() {
            self.bytes[self.at] = byte;
        }
        self.at = self.at.saturating_add(1);
    }

    pub fn put_all(&mut self, bytes: &[u8])
        ensures { Puts self.old self.new bytes.now }
    {
        for byte in bytes {
            self.put(*byte);
        }
    }

    // The digits of a number, the most significant first. By hand: what is printed is promised byte by byte, which std does not say of its printing.
    pub fn put_number(&mut self, n: u64)
        ensures put { Puts self.old self.new (decimal n) }
        ensures few { self.new.at ≤ self.old.at + wide_digits }
    {
        if n >= 10 {
            self.put_number(n / 10);
        }
        self.put(digit(n % 10));
    }

    // A line of a letter and its fields; nothing where it would start past MAX_AT. A plan and a refusal are printed in such lines.
    pub fn put_line(&mut self, letter: u8, fields: &[u64])
        ensures line { self.old.at ≤ max_at → Puts self.old self.new (line_of letter fields.now) }
        ensures past { max_at < self.old.at → Puts self.old self.new [] }
        ensures short { length fields.now ≤ line_fields → self.new.at ≤ self.old.at + max_line }
    {
        if self.at <= MAX_AT {
            self.put_record(letter, fields);
        }
    }

    // A line of a letter and its fields, wherever it starts.
    pub fn put_record(&mut self, letter: u8, fields: &[u64])
        ensures line { Puts self.old self.new (line_of letter fields.now) }
        ensures short { length fields.now ≤ line_fields → self.new.at ≤ self.old.at + max_line }
    {
        self.put(letter);
        for n in fields {
            self.put(TAB);
            self.put_number(*n);
        }
        self.put(NEWLINE);
    }
}
