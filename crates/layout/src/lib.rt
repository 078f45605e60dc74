#![tactic(auto)]

// The page of a plan: its rows as lines of fixed columns, written, judged and read back. It knows no board and no refusal.
mod column; // a column, read and written
mod line; // the line of a row, and the heading
pub mod read; // the rows of a page, or a text's first bad line
pub mod row; // a row and its limits
pub mod write; // a page and its length
