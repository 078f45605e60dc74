#![tactic(auto)]

// A board: items with places (document 02: kettles with inserts), and the auction over all places that stands under it.
pub mod columns; // a matching and prices by place, read by item
pub mod lent; // refusals 13 and 8 for the lists that a caller lends
pub mod opening; // open
pub mod record; // the record
pub mod shape; // which place belongs to which item
pub mod sound; // the test that a board is sound
pub mod spread; // what is said of items, said of their places
