// Whether bytes are a member record whose atoms have w places.
ghost use Rattle.std.specs.Prelude.{◌≡◌, true, cond, ◌+◌, ◌*◌, ◌-◌, ◌≤◌, T, length};
ghost use Rattle.covering.specs.Record.{width as width_of, desk, stored, desk_variables, is_width as is_width_of};
ghost use Rattle.covering.specs.Record.{is_term, unused, used_first, are_places, are_answer_places, is_atom, are_atoms};
ghost use Rattle.covering.specs.Record.{has_answer, answers as answers_of, is_record, is_desk_record};

use crate::PLACES;

// Whether atoms have so many places at all: four, or six.
fn is_width(w: usize) -> bool
    ensures { result ≡ is_width_of w }
{
    w == 4 || w == 6
}

// How many variables there are: 64 where an atom has four places, else 66.
fn variables(w: usize) -> u8
    ensures { result ≡ desk_variables w }
{
    if w == 4 { 64 } else { 66 }
}

// Whether a byte is a term: one of the variables, or a constant, 128 to 254.
#[tactic(auto, unfolding(covering::specs::Record::is_term))]
fn is_term(b: u8, w: usize) -> bool
    ensures { result ≡ is_term (desk w) b }
{
    b < variables(w) || (128 <= b && b < 255)
}

// Whether the places from the j-th on, of the w that start at i, are unused.
fn are_unused(s: &[u8], i: usize, from: usize, w: usize) -> bool
    requires { (from ≤ w) × (i + w ≤ length s.now) }
    ensures { result ≡ unused s.now (i + from) (w - from) }
{
    s[i + from..i + w].iter().all(|b| *b == 255)
}

// Whether the w places that start at i are first some terms and then unused.
fn used_first(s: &[u8], i: usize, w: usize) -> bool
    requires { i + w ≤ length s.now }
    ensures { result ≡ used_first (desk w) s.now i w }
{
    for j in 0..w {
        if !is_term(s[i + j], w) {
            return are_unused(s, i, j, w);
        }
    }
    true
}

// Whether the w places that start at i are right: a term at least, the rest unused.
#[tactic(auto, unfolding(covering::specs::Record::are_places))]
fn are_places(s: &[u8], i: usize, w: usize) -> bool
    requires { (1 ≤ w) × (i + w ≤ length s.now) }
    ensures { result ≡ are_places (desk w) s.now i }
{
    is_term(s[i], w) && used_first(s, i, w)
}

// Whether an atom starts at i.
#[tactic(auto, unfolding(covering::specs::Record::is_atom, covering::specs::Record::is_relation))]
fn is_atom(s: &[u8], i: usize, w: usize) -> bool
    requires { (1 ≤ w) × (i + 1 + w ≤ length s.now) }
    ensures { result ≡ is_atom (desk w) s.now i }
{
    s[i] < 64 && are_places(s, i + 1, w)
}

// Whether n atoms start at i, one after the other.
fn are_atoms(s: &[u8], i: usize, n: usize, w: usize) -> bool
    requires { (1 ≤ w) × (i + n * (1 + w) ≤ length s.now) }
    ensures { result ≡ are_atoms (desk w) s.now i n }
{
    (0..n).all(|k| is_atom(s, i + k * (1 + w), w))
}

// The bytes of a record of so many atoms, as it is held inside: "one count byte and its atoms".
pub fn width(count: u8) -> usize
    ensures { result ≡ width_of stored count }
{
    width_of(count, PLACES)
}

// The same where an atom has w places.
fn width_of(count: u8, w: usize) -> usize
    requires { T (is_width_of w) }
    ensures { result ≡ width_of (desk w) count }
{
    1 + usize::from(count) * (1 + w)
}

// How many answer records a record has: one exactly if its first atom's relation byte is 255, else none.
#[tactic(auto, unfolding(covering::specs::Record::has_answer))]
pub fn answers(s: &[u8]) -> u8
    ensures { result ≡ answers_of s.now }
{
    match s {
        [_, 255, ..] => 1,
        _ => 0,
    }
}

// Whether the answer record, where there is one, has its places right: at most four, whatever an atom has.
#[tactic(auto, unfolding(covering::specs::Record::are_answer_places, covering::specs::Record::has_answer))]
fn answer_right(s: &[u8], a: u8, w: usize) -> bool
    requires { (a ≡ answers_of s.now) × T (is_width_of w) × (1 + a * (1 + w) ≤ length s.now) }
    ensures { result ≡ cond (has_answer s.now) (are_answer_places (desk w) s.now 2) true }
{
    a == 0 || (are_places(s, 2, w) && are_unused(s, 2, 4, w))
}

// Whether s is a record whose atoms have w places, w one of the two widths: 0 to 11 atoms after its answer record, if
// any, and a length that fits exactly.
#[tactic(auto, unfolding(covering::specs::Record::is_record))]
fn is_record_of(s: &[u8], w: usize) -> bool
    requires { T (is_width_of w) }
    ensures { result ≡ is_record (desk w) s.now }
{
    let [n, ..] = s else {
        return false;
    };
    let a = answers(s);
    *n <= 11
        && s.len() == width_of(a + *n, w)
        && answer_right(s, a, w)
        && are_atoms(s, width_of(a, w), usize::from(*n), w)
}

// Whether s is a member record of this width, be it a width or not.
#[tactic(auto, unfolding(covering::specs::Record::is_desk_record))]
pub fn is_record(s: &[u8], w: usize) -> bool
    ensures { result ≡ is_desk_record w s.now }
{
    is_width(w) && is_record_of(s, w)
}
