// The definitions of covering and of the member record, and their laws: specs/ and proofs/. The code is in
// `cover` and `forming`.
#![tactic(auto)]

// The bytes in which a record is held: room for twelve atoms of six places, an answer record
// among them.
pub const RECORD: usize = 85;
