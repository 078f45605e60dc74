#![tactic(auto)]

// The bids of the multiplicative auction: a bid in the four steps of the slides, the chain of bids that a bidder begins, and what begins a chain. Rows,
// prices and holders are all that is known here.
pub mod chain; // the chain of bids
pub mod floors; // above which weight an edge is open, and prices in whole pence
pub mod moves; // a new row, or an item released, and the chain that follows
pub mod rule; // a bid: test open edges, pick, price, hand over
