#![tactic(auto)]

// The exact level: a matching of greatest weight, with whole-penny prices and gains that cover every live edge and add up to just that weight. The
// method is the Hungarian one: bidders are inserted one at a time, each by an alternating path.
pub mod exact; // the call
mod limits;
mod live; // a board's live edges, as a matrix of weights
mod search; // the search for an alternating path
mod solver; // bidders inserted one at a time
mod tree; // the alternating tree
