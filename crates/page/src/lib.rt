#![tactic(auto)]

// The page for the kitchen wall: written of a board, and read back.
pub mod reading; // read_page
pub mod writing; // write_page
