#![tactic(auto)]

// The definitions of the exploration, its laws and the three demands: specs/ and proofs/. The code is in
// `admit` and `explore`.
