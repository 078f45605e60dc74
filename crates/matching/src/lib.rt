#![tactic(auto)]

// A matching that was made elsewhere (document 01: a plan), against a board's live edges. The check and the comparison of two plans share it.
pub mod clash; // refusal 10
pub mod live; // the live edges of a board that is lent
pub mod weight; // what a matching weighs
