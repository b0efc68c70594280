// The search desk's operations, for any bytes whatsoever and either width. Each gives the map by which one record covers
// the other.
ghost use Rattle.std.specs.Prelude.{◌≡◌, T, replicate, take};
ghost use Rattle.covering.specs.Record.{desk, stored, asking_of, is_desk_record};
ghost use Rattle.covering.specs.Desk.{covering_map, covers_answer, covers_map, kept_answer, kept_map, Keeps, map_size};
ghost use Rattle.cover.specs.HeldMap.{Searched};
ghost use Rattle.cover.specs.Told.{number_told, map_told, which_told, kept_map_told};

use crate::search::{atoms, place_next};
use crate::{Keeping, MAP, Malformed, VARIABLES, Which};
use records::{answers, is_record, widened};

// Whether the first record covers the second, with the first map. If only one has an answer record, it does not; else
// that record is an atom as the others are. Both are widened first, so that the search knows of one width.
fn covers_record(first: &[u8], second: &[u8], w: usize, map: &mut [u8; VARIABLES]) -> bool
    requires { T (is_desk_record w first.now)
        × T (is_desk_record w second.now)
        × (map.old ≡ replicate stored.variables 255) }
    ensures { Searched
        (covering_map (asking_of (desk w) first.now) (asking_of (desk w) second.now))
        map.old
        map.new
        result }
{
    if answers(first) != answers(second) {
        return false;
    }
    let one = widened(first, w);
    let two = widened(second, w);
    place_next(atoms(&one), &two, map, true)
}

// The first bytes of a map, those of the variables that a record may have at the desk.
fn front(map: &[u8; VARIABLES]) -> [u8; MAP]
    ensures { result ≡ take map_size map.now }
{
    let mut given = [255u8; MAP];
    given.copy_from_slice(&map[..MAP]);
    given
}

// Whether the first record covers the second, with the first map if it does. An atom has w places, four or six; of any
// other width every record is malformed.
pub fn covers(first: &[u8], second: &[u8], w: usize) -> Result<Option<[u8; MAP]>, Malformed>
    ensures number { number_told result ≡ covers_answer w first.now second.now }
    ensures map { map_told result ≡ covers_map w first.now second.now }
{
    if !is_record(first, w) {
        return Err(Malformed::First);
    }
    if !is_record(second, w) {
        return Err(Malformed::Second);
    }
    let mut map = [255u8; VARIABLES];
    if !covers_record(first, second, w, &mut map) {
        return Ok(None);
    }
    Ok(Some(front(&map)))
}

// The number of what covering answers: 0 no, 1 yes, 2 the first is malformed, 3 the second is.
pub fn number(covered: &Result<Option<[u8; MAP]>, Malformed>) -> u8
    ensures { result ≡ number_told covered.now }
{
    match covered {
        Ok(None) => 0,
        Ok(Some(_)) => 1,
        Err(Malformed::First) => 2,
        Err(Malformed::Second) => 3,
    }
}

// Which of two records to keep: the first, where it covers the second; the second, where it alone covers; else none.
pub fn kept(first: &[u8], second: &[u8], w: usize) -> Option<Keeping>
    ensures which { which_told result ≡ kept_answer w first.now second.now }
    ensures map { kept_map_told result ≡ kept_map w first.now second.now }
{
    let there = covers(first, second, w).ok().flatten();
    if let Some(map) = there {
        let which = Which::First;
        return Some(Keeping { which, map });
    }
    let map = covers(second, first, w).ok().flatten()?;
    let which = Which::Second;
    Some(Keeping { which, map })
}

// The same, as a part of its own buffer: the empty part at the first's start where a record is malformed or neither
// covers the other.
pub fn keep<'a>(first: &'a [u8], second: &'a [u8], w: usize) -> &'a [u8]
    ensures { Keeps w first.entry second.entry result }
{
    let Some(chosen) = kept(first, second, w) else {
        return &first[..0];
    };
    match chosen.which {
        Which::First => first,
        Which::Second => second,
    }
}
