// Admitting one rewriting to a union in the working array: it is dropped where a member covers it; else the members that
// it covers are removed and it is appended. specs/ says how the array holds a run's state; what admitting is stands in
// `exploration`.
#![tactic(auto)]

mod admitting;
mod members;
mod removing;
mod searching;
mod sets;
mod working;

pub use admitting::admit;
pub use members::Members;
pub use working::append;

// "Offset of the first member (8)".
pub const FIRST: usize = 8;

// "Output room becomes 4,104 for all": 8 and 64 times the record of eight atoms and an answer record, six places each.
pub const OUTPUT: usize = 4104;

// "A 65th member": there is room for 64.
pub const ROOM: usize = 64;

// How far the working array is filled: where its members end, how many they are, and how many of them, from the first
// on, are explored.
#[derive(Clone, Copy)]
pub struct Extent {
    pub len: usize,
    pub count: usize,
    pub front: usize,
}

// Members passed in the removal: where the next one stands, where the next kept one goes, and how many were kept.
#[derive(Clone, Copy)]
pub struct Moved {
    pub from: usize,
    pub to: usize,
    pub kept: usize,
}

// What becomes of one rewriting that does not end the run: a member covers it, or it is appended.
#[derive(Clone, Copy)]
pub enum Fate {
    Dropped,
    Appended,
}
