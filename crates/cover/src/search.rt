// The search for a covering map: one function takes the next atom, one tries its next candidate, and they call each
// other. One map is lent through it. What an atom placed is taken back before its next candidate is tried, so a no
// leaves the map as it came. The atoms still to place are lent where they stand, seven bytes each: `rest`.
ghost use Rattle.std.specs.Prelude.{◌≡◌, ◌+◌, ◌*◌, ◌≤◌, ◌<◌, T, length, get_or, drop, true, false, not, ◌&&◌};
ghost use Rattle.covering.specs.Lists.{is_some, any, all};
ghost use Rattle.covering.specs.Term.{terms, eq_term};
ghost use Rattle.covering.specs.Search.{place_atom, find_map, covers};
ghost use Rattle.cover.specs.Candidates.{placed_on, found_on, has_candidate, new_to, leads_on, is_placed, is_met};
ghost use Rattle.covering.specs.Record.{stored, width, term_of, is_atom, atom_at, question_of, SoundRecord};
ghost use Rattle.cover.specs.HeldMap.{part_of, Searched};
ghost use Rattle.cover.specs.Rest.{atoms_of, SoundAtoms};
ghost use Rattle.covering.specs.Buffer.{AtomsIn, record_room};

use crate::VARIABLES;
use crate::place::{send, take_back, terms_meet};
use covering::RECORD;
use records::{copy_record, stands_in};

// The atoms that a record counts, seven bytes each.
pub fn atoms(held: &[u8; RECORD]) -> &[u8]
    requires { AtomsIn stored held.now 1 (get_or held.now 0 0) }
    ensures sound { SoundAtoms result.now }
    ensures atoms { atoms_of result.now ≡ question_of stored held.now }
    ensures long { length result.now ≡ get_or held.now 0 0 * 7 }
{
    &held[1..1 + usize::from(held[0]) * 7]
}

// Whether the atom can be placed on one of the atoms of second, as the map is now.
fn has_candidate(atom: &[u8], second: &[u8; RECORD], map: &[u8; VARIABLES]) -> bool
    requires { (7 ≤ length atom.now)
        × T (is_atom stored atom.now 0)
        × (width stored (get_or second.now 0 0) ≤ record_room) }
    ensures { result
        ≡ has_candidate (part_of map.now) (question_of stored second.now) (atom_at stored atom.now 0) }
{
    for n in 0..usize::from(second[0]) {
        let k = 1 + n * 7;
        if atom[0] == second[k] && terms_meet(&atom[1..7], &second[k + 1..k + 7], map) {
            return true;
        }
    }
    false
}

// The look-ahead: whether each of the atoms still to place has a candidate.
fn all_have(rest: &[u8], second: &[u8; RECORD], map: &[u8; VARIABLES]) -> bool
    requires { SoundAtoms rest.now × (width stored (get_or second.now 0 0) ≤ record_room) }
    ensures { result
        ≡ all (has_candidate (part_of map.now) (question_of stored second.now)) (atoms_of rest.now) }
{
    for n in 0..rest.len() / 7 {
        if !has_candidate(&rest[n * 7..n * 7 + 7], second, map) {
            return false;
        }
    }
    true
}

// Whether it is seen, if one looks, that the atoms still to place cannot be placed: one has no candidate.
fn seen_dead(rest: &[u8], second: &[u8; RECORD], map: &[u8; VARIABLES], look: bool) -> bool
    requires { SoundAtoms rest.now × (width stored (get_or second.now 0 0) ≤ record_room) }
    ensures { result ≡ true
        → all (has_candidate (part_of map.now) (question_of stored second.now)) (atoms_of rest.now)
        ≡ false }
{
    if !look {
        return false;
    }
    !all_have(rest, second, map)
}

// Whether the place u of an atom is a variable that goes nowhere yet and stands in the atoms still to place.
fn place_leads(rest: &[u8], map: &[u8; VARIABLES], u: u8) -> bool
    requires { 96 ≤ u → 128 ≤ u }
    ensures { result
        ≡ (new_to (part_of map.now) (term_of u) && any (eq_term (term_of u)) (terms (atoms_of rest.now))) }
{
    if 96 <= u {
        return false;
    }
    if map[u as usize] != 255 {
        return false;
    }
    stands_in(rest, 0, rest.len() / 7, u)
}

// Whether the first of the atoms still to place brings those after it a variable that goes nowhere yet.
fn leads_on(rest: &[u8], map: &[u8; VARIABLES]) -> bool
    requires { SoundAtoms rest.now × (0 < length rest.now) }
    ensures { result ≡ leads_on (part_of map.now) (atom_at stored rest.now 0) (atoms_of (drop 7 rest.now)) }
{
    for j in 0..6 {
        let u = rest[1 + j];
        if u == 255 {
            return false;
        }
        if place_leads(&rest[7..], map, u) {
            return true;
        }
    }
    false
}

// What becomes of a candidate: the atom does not meet it; it and those after it are placed; it meets it, and those after
// it cannot be placed.
#[derive(Clone, Copy, PartialEq, Eq)]
enum Tried {
    Apart,
    Placed,
    Met,
}

// Whether no other candidate has to be tried: the first of the atoms still to place met this one, those after it could
// not be placed, and it brings them nothing new, so that they cannot be placed wherever it goes.
fn gives_up(rest: &[u8], map: &[u8; VARIABLES], tried: Tried) -> bool
    requires { SoundAtoms rest.now × (0 < length rest.now) }
    ensures { result
        ≡ (is_met tried
        && not (leads_on (part_of map.now) (atom_at stored rest.now 0) (atoms_of (drop 7 rest.now)))) }
{
    if tried != Tried::Met {
        return false;
    }
    !leads_on(rest, map)
}

// Takes the next atom: places the atoms still to place, in order, on the atoms of second, the next one on the first
// candidate from which those after it can be placed too. A branch in which some atom has no candidate any more ends
// at once; that changes no answer. Most searches that are not `careful` find a map at the first try: they look ahead
// only once a candidate has failed.
// The map is lent, not given in an Option: that would copy its 96 bytes at each atom.
#[cycle(place_next_try_candidate)]
pub fn place_next(
    rest: &[u8],
    second: &[u8; RECORD],
    map: &mut [u8; VARIABLES],
    careful: bool,
) -> bool
    requires { SoundAtoms rest.now × (width stored (get_or second.now 0 0) ≤ record_room) }
    ensures { Searched
        (find_map (atoms_of rest.now) (question_of stored second.now) (part_of map.old))
        map.old
        map.new
        result }
{
    if rest.is_empty() {
        return true;
    }
    if seen_dead(rest, second, map, careful) {
        return false;
    }
    let mut looks = careful;
    for n in 0..usize::from(second[0]) {
        let candidate = &second[1 + n * 7..8 + n * 7];
        let tried = try_candidate(rest, second, map, candidate, looks);
        if tried == Tried::Placed {
            return true;
        }
        if gives_up(rest, map, tried) {
            return false;
        }
        let met = tried == Tried::Met;
        if seen_dead(rest, second, map, met & !looks) {
            return false;
        }
        looks |= met;
    }
    false
}

// Tries the next candidate: the first of the atoms still to place goes to it, and those after it are placed; where they
// cannot be, it is taken back. Says whether it met the candidate, and whether all were placed.
#[cycle(place_next_try_candidate)]
fn try_candidate(
    rest: &[u8],
    second: &[u8; RECORD],
    map: &mut [u8; VARIABLES],
    candidate: &[u8],
    careful: bool,
) -> Tried
    requires { SoundAtoms rest.now
        × (0 < length rest.now)
        × (7 ≤ length candidate.now)
        × (width stored (get_or second.now 0 0) ≤ record_room) }
    ensures searched { Searched
        (placed_on
        (atom_at stored rest.now 0)
        (atoms_of (drop 7 rest.now))
        (question_of stored second.now)
        (part_of map.old)
        (atom_at stored candidate.now 0))
        map.old
        map.new
        (is_placed result) }
    ensures met { result ≡ Tried.Met
        → is_some (place_atom (part_of map.old) (atom_at stored rest.now 0) (atom_at stored candidate.now 0))
        ≡ true }
{
    if rest[0] != candidate[0] {
        return Tried::Apart;
    }
    let terms = &rest[1..7];
    let others = &candidate[1..7];
    if !terms_meet(terms, others, map) {
        return Tried::Apart;
    }
    let before = send(terms, others, map);
    if place_next(&rest[7..], second, map, careful) {
        return Tried::Placed;
    }
    take_back(terms, map, before);
    Tried::Met
}

// Whether the first record covers the second, where both are known to be sound and count all their atoms. Where a
// relation of the first does not stand in the second it does not, and no map is tried.
pub fn covers_sound(first: &[u8; RECORD], second: &[u8]) -> bool
    requires { SoundRecord stored first.now × SoundRecord stored second.now }
    ensures { result
        ≡ covers (question_of stored first.now) (question_of stored second.now) }
{
    if !records::are_among(first, records::relations(second)) {
        return false;
    }
    let held = copy_record(second);
    let mut map = [255u8; VARIABLES];
    place_next(atoms(first), &held, &mut map, true)
}

// The same with first's first atom, which it has, on atom k of second: what a loop over candidates asks. The map is
// lent, so that it is found once.
pub fn covers_on(first: &[u8], second: &[u8; RECORD], map: &mut [u8; VARIABLES], k: usize) -> bool
    requires { SoundRecord stored first.now
        × SoundRecord stored second.now
        × (k < get_or second.now 0 0)
        × (1 ≤ get_or first.now 0 0) }
    ensures { Searched
        (found_on
        (question_of stored first.now)
        (question_of stored second.now)
        (part_of map.old)
        (atom_at stored second.now (1 + k * 7)))
        map.old
        map.new
        result }
{
    if first[1] != second[1 + k * 7] {
        return false;
    }
    let held = copy_record(first);
    try_candidate(
        atoms(&held),
        second,
        map,
        &second[1 + k * 7..8 + k * 7],
        false,
    ) == Tried::Placed
}
