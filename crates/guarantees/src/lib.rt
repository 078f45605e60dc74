#![tactic(auto)]

// The demands on one page: specs/Guarantees.antt. There is no code here; proofs/ cites the crates below.
