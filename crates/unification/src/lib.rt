#![tactic(auto)]

// The definitions of one-step rewritings and their laws: specs/ and proofs/. The code is in `unify` and
// `lister`.
