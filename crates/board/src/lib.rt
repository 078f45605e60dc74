#![tactic(auto)]

// The board: what it holds, its limits and units, and the test that it is sound.
pub mod lent; // the lists that a caller lends
pub mod opening; // open
pub mod ranges; // numbers and slacks within their ranges
pub mod record; // the record and its limits
pub mod sound; // the test that a board is sound
pub mod units; // pence, q-ths of a penny, and the slack by which they meet
