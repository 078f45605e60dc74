#![tactic(auto)]

// The calls of the quick level, over a board of items and bidders. No call asks anything of its caller; `arrive_in` and `withdraw_in`, and
// `Live::new`, by which the replay keeps a board that it knows to be sound, do.
pub mod arrive;
pub mod edges; // an arrival's edges: tested, and written as a row
pub mod live; // a board known to be sound, with its floors
pub mod items; // a withdrawal's items, tested
pub mod read_out;
pub mod withdraw;
