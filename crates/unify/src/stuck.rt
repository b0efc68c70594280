// Looking ahead: whether an atom that has no digit yet can get none, so that no choice that goes on from these classes is
// valid. A yes is right. A no says nothing: it costs time alone. So the loops are no `any`, whose laws want every answer
// of the closure determined.
ghost use Rattle.std.specs.Prelude.{◌≡◌, true, map, ◌+◌, ◌*◌, ◌≤◌, T, length};
ghost use Rattle.covering.specs.Lists.{◌∈◌};
ghost use Rattle.covering.specs.Term.{Term, Atom, on_term, on_atom};
ghost use Rattle.covering.specs.Record.{stored, term_of, args_at, atom_at, atoms_at, used_first, is_atom};
ghost use Rattle.covering.specs.Buffer.{AtomsIn};
ghost use Rattle.unification.specs.Classes.{Pair};
ghost use Rattle.unification.specs.Choice.{place_pairs};
ghost use Rattle.unification.specs.Step.{up, move};
ghost use Rattle.unify.specs.Table.{tabled};
ghost use Rattle.unify.specs.InBytes.{in_book, rule_of, classes_of};
ghost use Rattle.unify.specs.Stuck.{TiedTo, Barred, Stuck};

use crate::Rule;
use crate::byte::{moved, stands_for};
use records::stands_in;

// Whether an existential variable other than u stands for the class of t.
fn tied_to(rule: &Rule<'_>, table: &[u8], t: u8, u: u8) -> bool
    requires { length table.now ≡ 96 }
    ensures { result ≡ true
        → TiedTo
        (tabled (classes_of table.now))
        (move 48 (rule_of rule.now.book.now rule.now.parts))
        (term_of t)
        (term_of u) }
{
    let z = stands_for(table, t);
    if z < 48 {
        return false;
    }
    if 96 <= z {
        return false;
    }
    if z == u {
        return false;
    }
    if stands_for(table, z) != z {
        return false;
    }
    let v = z - 48;
    if stands_in(rule.book, rule.parts.body, rule.parts.bodies, v) {
        return false;
    }
    stands_in(rule.book, rule.parts.head, rule.parts.heads, v)
}

// Whether a term in the used places of the question from i on is in the class of an existential variable: then the atom
// cannot be left.
fn tied_places(question: &[u8], rule: &Rule<'_>, table: &[u8], i: usize) -> bool
    requires { (length table.now ≡ 96) × (i + 6 ≤ length question.now) }
    ensures { result ≡ true
        → (t : Term)
        × (t ∈ args_at question.now i 6)
        × TiedTo
        (tabled (classes_of table.now))
        (move 48 (rule_of rule.now.book.now rule.now.parts))
        t
        t }
{
    for j in 0..6 {
        let t = question[i + j];
        if t == 255 {
            return false;
        }
        if tied_to(rule, table, t, t) {
            return true;
        }
    }
    false
}

// Whether such a term would meet another term than that variable, were the places of the question from i on put with
// those of the head from k on: then the atom cannot be sent there.
fn barred_places(question: &[u8], rule: &Rule<'_>, table: &[u8], i: usize, k: usize) -> bool
    requires { (length table.now ≡ 96)
        × (i + 6 ≤ length question.now)
        × (k + 6 ≤ length rule.now.book.now)
        × T (used_first in_book rule.now.book.now k 6) }
    ensures { result ≡ true
        → (p : Pair)
        × (p
        ∈ place_pairs (args_at question.now i 6) (map (on_term (up 48)) (args_at rule.now.book.now k 6)))
        × TiedTo
        (tabled (classes_of table.now))
        (move 48 (rule_of rule.now.book.now rule.now.parts))
        p.0
        p.1 }
{
    for j in 0..6 {
        let t = question[i + j];
        let u = rule.book[k + j];
        if t == 255 {
            return false;
        }
        if u == 255 {
            return false;
        }
        if tied_to(rule, table, t, moved(u)) {
            return true;
        }
    }
    false
}

// Whether the atom of the question at i cannot be sent to the head atom at k.
fn is_barred(question: &[u8], rule: &Rule<'_>, table: &[u8], i: usize, k: usize) -> bool
    requires { (length table.now ≡ 96)
        × (i + 7 ≤ length question.now)
        × (k + 7 ≤ length rule.now.book.now)
        × T (is_atom in_book rule.now.book.now k) }
    ensures { result ≡ true
        → Barred
        (tabled (classes_of table.now))
        (move 48 (rule_of rule.now.book.now rule.now.parts))
        (atom_at stored question.now i)
        (on_atom (up 48) (atom_at stored rule.now.book.now k)) }
{
    if question[i] != rule.book[k] {
        return true;
    }
    barred_places(question, rule, table, i + 1, k + 1)
}

// Whether it can neither be left nor sent.
fn is_stuck(question: &[u8], rule: &Rule<'_>, table: &[u8], i: usize) -> bool
    requires { AtomsIn in_book rule.now.book.now rule.now.parts.head rule.now.parts.heads
        × (length table.now ≡ 96)
        × (i + 7 ≤ length question.now) }
    ensures { result ≡ true
        → Stuck
        (tabled (classes_of table.now))
        (move 48 (rule_of rule.now.book.now rule.now.parts))
        (atom_at stored question.now i) }
{
    if !tied_places(question, rule, table, i + 1) {
        return false;
    }
    let parts = rule.parts;
    for n in 0..parts.heads {
        let k = parts.head + n * 7;
        if !is_barred(question, rule, table, i, k) {
            return false;
        }
    }
    true
}

// Whether one of the n atoms of the question from i on is stuck.
pub fn some_stuck(question: &[u8], rule: &Rule<'_>, table: &[u8], i: usize, n: usize) -> bool
    requires { AtomsIn in_book rule.now.book.now rule.now.parts.head rule.now.parts.heads
        × (length table.now ≡ 96)
        × (i + n * 7 ≤ length question.now) }
    ensures { result ≡ true
        → (a : Atom)
        × (a ∈ atoms_at stored question.now i n)
        × Stuck
        (tabled (classes_of table.now))
        (move 48 (rule_of rule.now.book.now rule.now.parts))
        a }
{
    for k in 0..n {
        if is_stuck(question, rule, table, i + k * 7) {
            return true;
        }
    }
    false
}
