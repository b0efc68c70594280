// Member records as bytes, of either width: whether bytes are a record, and its atoms copied from one width to another.
// A record is a count byte and its atoms, a relation number and four or six places each, of which the first ones hold a
// variable or a constant (128 to 254) and the rest 255. Inside all atoms have six.
#![tactic(auto)]

mod copying;
mod held;
mod record;
mod sets;
mod standing;

pub use copying::{copy_atoms, copy_record, widened};
pub use held::{Held, Record, no_atoms};
pub use record::{answers, is_record, width};
pub use sets::{are_among, is_part, relations, relations_at};
pub use standing::stands_in;

// The places of an atom inside.
pub const PLACES: usize = 6;
