// Copying a stored book from one form to the other: what it says stays, each atom gets the wanted form's places.
#![tactic(auto)]

mod copying;
mod old_form;
mod put;

pub use copying::{to_new, to_old};

// The room that a copy is given, which every book has enough of.
pub const BOOK: usize = 2003;
