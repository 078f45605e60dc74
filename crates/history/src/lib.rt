#![tactic(auto)]

// What a history text's plan is printed as, and what a refused text is answered.
pub mod planning; // the calls
pub mod wall; // the page of a text's board
mod output; // the lines of the output
mod reading; // the figures of a board
