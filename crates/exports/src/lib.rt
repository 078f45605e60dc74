#![tactic(auto)]

// The calls for callers of another language: numbers, slices and the board in, a struct by value out. No call asks anything of its caller.
pub mod answers; // what a call answers, in numbers
pub mod boards; // open, arrive, withdraw, test, read out
pub mod pages; // the page for the kitchen wall
pub mod plans; // the exact level, the slow count, the check, and the comparison
pub mod texts; // the calls on a history text
