#![tactic(auto)]

// What the proofs by hand share stands in proofs/. There is no code to run here.
