// Building member records: an atom put after those that are there, and a record's form. A record is built at the front
// of 85 bytes, which hold 12 atoms, the rest 255: in bytes that are lent, or in one of its own.
#![tactic(auto)]

mod formed;

pub use formed::{add_atom, add_on, held_form, in_form, put_atom, put_on};
// what they are lent and what they build
pub use records::{Held, Record, no_atoms};
