// Placing one atom of the first question on one atom of the second, under the map so far, and taking it back. The map
// has a byte for each variable, 255 where it goes nowhere yet. A candidate is tested before a byte is written. The
// places of an atom are lent where they stand: those of the first question are the terms, those of the second the others.
ghost use Rattle.std.specs.Prelude.{◌≡◌, cond, ℕ, ◌≤◌, ◌<◌, T, ltb, length, get_or};
ghost use Rattle.covering.specs.Lists.{is_some};
ghost use Rattle.covering.specs.Search.{place_term, place_terms};
ghost use Rattle.covering.specs.Record.{stored, term_of, args_at, used_first};
ghost use Rattle.cover.specs.HeldMap.{part_of, put, sent_to, HadBefore, taken_back};

use crate::VARIABLES;

// Where the variable t goes once the first j terms are sent to the first j others: 255 for nowhere.
// A byte and no Option, since the map has 255 for nowhere too and the clause speaks of its bytes.
fn goes_to(terms: &[u8], others: &[u8], map: &[u8; VARIABLES], j: usize, t: u8) -> u8
    requires { (t < 96)
        × (j ≤ length terms.now)
        × (j ≤ length others.now)
        × ((n : ℕ) → n < j → get_or others.now n 0 ≡ 255 → ⊥) }
    ensures { result ≡ get_or (sent_to map.now terms.now others.now j) t 0 }
{
    let had = map[t as usize];
    if had != 255 {
        return had;
    }
    for n in 0..j {
        if terms[n] == t {
            return others[n];
        }
    }
    255
}

// Whether the j-th of the terms can be sent to that of the others, after those before it.
fn term_meets(terms: &[u8], others: &[u8], map: &[u8; VARIABLES], j: usize) -> bool
    requires { (j < length terms.now)
        × (j < length others.now)
        × ((n : ℕ) → n < j → get_or others.now n 0 ≡ 255 → ⊥)
        × (get_or others.now j 0 ≡ 255 → ⊥)
        × (96 ≤ get_or terms.now j 0 → 128 ≤ get_or terms.now j 0) }
    ensures { result
        ≡ is_some
        (place_term
        (part_of (sent_to map.now terms.now others.now j))
        (term_of (get_or terms.now j 0))
        (term_of (get_or others.now j 0))) }
{
    let t = terms[j];
    let u = others[j];
    if 96 <= t {
        return t == u;
    }
    let goes = goes_to(terms, others, map, j, t);
    if goes == 255 {
        return true;
    }
    goes == u
}

// Whether the terms that are used can be sent to the others: as many, each to its own.
pub fn terms_meet(terms: &[u8], others: &[u8], map: &[u8; VARIABLES]) -> bool
    requires { (6 ≤ length terms.now) × (6 ≤ length others.now) × T (used_first stored terms.now 0 6) }
    ensures { result
        ≡ is_some (place_terms (part_of map.now) (args_at terms.now 0 6) (args_at others.now 0 6)) }
{
    for j in 0..6 {
        if terms[j] == 255 {
            return others[j] == 255;
        }
        if others[j] == 255 {
            return false;
        }
        if !term_meets(terms, others, map, j) {
            return false;
        }
    }
    true
}

// Sends t, where it is a variable that goes nowhere yet, to u. Gives what the map had for it, 255 for a constant.
fn send_term(map: &mut [u8; VARIABLES], t: u8, u: u8) -> u8
    ensures { (map.new ≡ put map.old t u)
        × (result ≡ cond (ltb t 96) (get_or map.old t 0) 255) }
{
    if 96 <= t {
        return 255;
    }
    let at = t as usize;
    let had = map[at];
    if had == 255 {
        map[at] = u;
    }
    had
}

// Sends the terms that are used to the others, where they meet. Gives what the map had for each, to take back to.
pub fn send(terms: &[u8], others: &[u8], map: &mut [u8; VARIABLES]) -> [u8; 6]
    requires { (6 ≤ length terms.now) × (6 ≤ length others.now) × T (used_first stored terms.now 0 6) }
    ensures { (map.new ≡ sent_to map.old terms.now others.now 6)
        × HadBefore map.old terms.now others.now 6 result }
{
    let mut before = [255u8; 6];
    for j in 0..6 {
        let t = terms[j];
        if t == 255 {
            return before;
        }
        before[j] = send_term(map, t, others[j]);
    }
    before
}

// Takes the terms back to what the map had before they were sent, the last first.
pub fn take_back(terms: &[u8], map: &mut [u8; VARIABLES], before: [u8; 6])
    requires { 6 ≤ length terms.now }
    ensures { map.new ≡ taken_back map.old terms.now before 6 }
{
    for j in (0..6).rev() {
        let t = terms[j];
        if t < 96 {
            map[t as usize] = before[j];
        }
    }
}
