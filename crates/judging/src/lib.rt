// Judging a stored book: its header, its relations, its rules and every byte of its atoms, in the order of the refusals.
#![tactic(auto)]

mod answer;
mod first;
mod form;
mod headed;
mod header;
mod judge;
mod words;

pub use first::refused_at;
pub use form::Form;
pub use headed::contents;
pub use header::{answers, in_table, offsets_right};
use reading::Header;
pub use words::{ATOM, OLD_PLACES, word};
