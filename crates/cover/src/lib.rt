// Covering, and the search desk's operations over member records. The search is over records of six places an atom; the
// desk widens those of four.
#![tactic(auto)]

ghost use Rattle.std.specs.Prelude.{◌≡◌};
ghost use Rattle.cover.specs.Told.{number_of};

mod desk;
mod place;
mod search;

pub use desk::{covers, keep, kept, number};
pub use search::{covers_on, covers_sound};

// The bytes of a map, one for each variable that a record may have at the desk.
pub const MAP: usize = 66;

// The bytes of the map that is lent through a search, one for each variable that a record may have before its form.
pub const VARIABLES: usize = 96;

// Which of two records is malformed; the first, where both are.
#[derive(Clone, Copy, Debug, PartialEq, Eq)]
pub enum Malformed {
    First,
    Second,
}

// Which of two records to keep.
#[derive(Clone, Copy, Debug, PartialEq, Eq)]
pub enum Which {
    First,
    Second,
}

impl From<Which> for u8 {
    ghost from_gives = { λ which n. n ≡ number_of which };

    fn from(which: Which) -> u8 {
        match which {
            Which::First => 1,
            Which::Second => 2,
        }
    }
}

// Which of two records to keep, and the map by which it covers the other. "Byte v is the term's byte that variable v
// goes to; 255 where v does not stand in the first record".
#[derive(Clone, Copy)]
pub struct Keeping {
    pub which: Which,
    pub map: [u8; MAP],
}
