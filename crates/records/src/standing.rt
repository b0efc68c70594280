// Where a term stands: whether it is in a place of an atom, and whether it is in one of some atoms.
ghost use Rattle.std.specs.Prelude.{◌≡◌, ◌+◌, ◌*◌, ◌≤◌, length};
ghost use Rattle.covering.specs.Lists.{any};
ghost use Rattle.covering.specs.Term.{terms, eq_term};
ghost use Rattle.covering.specs.Record.{stored, term_of, args_at, atoms_at};

// Whether the term t stands in one of the used places, of the six from i on.
fn stands_at(s: &[u8], i: usize, t: u8) -> bool
    requires { i + 6 ≤ length s.now }
    ensures { result ≡ any (eq_term (term_of t)) (args_at s.now i 6) }
{
    for u in &s[i..i + 6] {
        if *u == 255 {
            return false;
        }
        if *u == t {
            return true;
        }
    }
    false
}

// Whether the term t stands in one of the n atoms from i on.
pub fn stands_in(s: &[u8], i: usize, n: usize, t: u8) -> bool
    requires { i + n * 7 ≤ length s.now }
    ensures { result ≡ any (eq_term (term_of t)) (terms (atoms_at stored s.now i n)) }
{
    for k in 0..n {
        if stands_at(s, i + k * 7 + 1, t) {
            return true;
        }
    }
    false
}
