#![tactic(auto)]

// The mathematics of weighted bipartite matchings stands in specs/ and proofs/. There is no code to run here.
