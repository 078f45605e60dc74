#![tactic(auto)]

// Fields, numbers and lines of a text, and the printing of numbers and lines.
pub mod line;
pub mod print;
pub mod reader;
pub mod scan;

// What parts the fields of a line, and what closes it.
pub(crate) const TAB: u8 = b'\t';

pub(crate) const NEWLINE: u8 = b'\n';
