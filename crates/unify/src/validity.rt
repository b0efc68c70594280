// Whether a choice is valid, by its classes: each existential variable of the rule's head is alone in its class, but
// for question variables that occur in no left atom. Used places are gone over by a `for`: of a closure's turn the check
// does not know that the byte there is a sound term (tried with `all`).
ghost use Rattle.std.specs.Prelude.{◌≡◌, not, ◌||◌, map, ◌+◌, ◌*◌, ◌≤◌, T, length, get_or};
ghost use Rattle.covering.specs.Lists.{all};
ghost use Rattle.covering.specs.Term.{on_term, on_question, terms, eq_term};
ghost use Rattle.covering.specs.Record.{stored, term_of, args_at, atoms_at, used_first, question_of};
ghost use Rattle.covering.specs.Buffer.{AtomsIn};
ghost use Rattle.unification.specs.Step.{up, move, mem_term, is_unknown, guarded, safe, valid};
ghost use Rattle.unify.specs.Table.{tabled};
ghost use Rattle.unify.specs.InBytes.{in_book, rule_of, classes_of};

use crate::Rule;
use crate::byte::{moved, shifted, stands_for};
use records::stands_in;

// Whether the term t is z itself or is in another class than the one that rep stands for.
fn is_apart(table: &[u8], t: u8, z: u8, rep: u8) -> bool
    requires { length table.now ≡ 96 }
    ensures { result
        ≡ (eq_term (term_of t) (term_of z)
        || not (eq_term (on_term (tabled (classes_of table.now)) (term_of t)) (term_of rep))) }
{
    if t == z {
        return true;
    }
    stands_for(table, t) != rep
}

// Whether, of the terms in the used places from i on, moved up by shift, none but z is in the class of rep.
fn apart_places(s: &[u8], i: usize, shift: u8, z: u8, rep: u8, table: &[u8]) -> bool
    requires { (i + 6 ≤ length s.now)
        × (shift ≤ 48)
        × T (used_first in_book s.now i 6)
        × (length table.now ≡ 96) }
    ensures { result
        ≡ all
        (λ t. eq_term t (term_of z) || not (eq_term (on_term (tabled (classes_of table.now)) t) (term_of rep)))
        (map (on_term (up shift)) (args_at s.now i 6)) }
{
    for j in 0..6 {
        let u = s[i + j];
        if u == 255 {
            return true;
        }
        let t = shifted(u, shift);
        if !is_apart(table, t, z, rep) {
            return false;
        }
    }
    true
}

// The same of the terms of the n atoms from i on. A `for` and not `all`: that an atom's used places come first, the check
// gives a loop's turn, but not a closure's.
fn apart_atoms(s: &[u8], i: usize, n: usize, shift: u8, z: u8, rep: u8, table: &[u8]) -> bool
    requires { AtomsIn in_book s.now i n × (shift ≤ 48) × (length table.now ≡ 96) }
    ensures { result
        ≡ all
        (λ t. eq_term t (term_of z) || not (eq_term (on_term (tabled (classes_of table.now)) t) (term_of rep)))
        (terms (on_question (up shift) (atoms_at stored s.now i n))) }
{
    for k in 0..n {
        if !apart_places(s, i + k * 7 + 1, shift, z, rep, table) {
            return false;
        }
    }
    true
}

// Whether no constant stands for the class of the moved term z, and no term of the left atoms, the body or the head is
// in it but z.
fn is_safe(left: &[u8], rule: &Rule<'_>, table: &[u8], z: u8) -> bool
    requires { AtomsIn in_book left.now 1 (get_or left.now 0 0)
        × AtomsIn in_book rule.now.book.now rule.now.parts.body rule.now.parts.bodies
        × AtomsIn in_book rule.now.book.now rule.now.parts.head rule.now.parts.heads
        × (length table.now ≡ 96) }
    ensures { result
        ≡ safe
        (tabled (classes_of table.now))
        (guarded
        (atoms_at stored left.now 1 (get_or left.now 0 0))
        (move 48 (rule_of rule.now.book.now rule.now.parts)))
        (term_of z) }
{
    let rep = stands_for(table, z);
    if 128 <= rep {
        return false;
    }
    let n = usize::from(left[0]);
    let parts = rule.parts;
    if !apart_atoms(left, 1, n, 0, z, rep, table) {
        return false;
    }
    if !apart_atoms(rule.book, parts.body, parts.bodies, 48, z, rep, table) {
        return false;
    }
    apart_atoms(rule.book, parts.head, parts.heads, 48, z, rep, table)
}

// Whether the head's term u, once moved, is no existential variable or is safe.
fn is_allowed(left: &[u8], rule: &Rule<'_>, table: &[u8], u: u8) -> bool
    requires { AtomsIn in_book left.now 1 (get_or left.now 0 0)
        × AtomsIn in_book rule.now.book.now rule.now.parts.body rule.now.parts.bodies
        × AtomsIn in_book rule.now.book.now rule.now.parts.head rule.now.parts.heads
        × (48 ≤ u → 128 ≤ u)
        × (length table.now ≡ 96) }
    ensures { result
        ≡ (not (is_unknown (move 48 (rule_of rule.now.book.now rule.now.parts)) (on_term (up 48) (term_of u)))
        || safe
        (tabled (classes_of table.now))
        (guarded
        (atoms_at stored left.now 1 (get_or left.now 0 0))
        (move 48 (rule_of rule.now.book.now rule.now.parts)))
        (on_term (up 48) (term_of u))) }
{
    if 128 <= u {
        return true;
    }
    if stands_in(rule.book, rule.parts.body, rule.parts.bodies, u) {
        return true;
    }
    let z = moved(u);
    is_safe(left, rule, table, z)
}

// The same of each term in the used places of its book from i on.
fn allowed_places(left: &[u8], rule: &Rule<'_>, table: &[u8], i: usize) -> bool
    requires { AtomsIn in_book left.now 1 (get_or left.now 0 0)
        × AtomsIn in_book rule.now.book.now rule.now.parts.body rule.now.parts.bodies
        × AtomsIn in_book rule.now.book.now rule.now.parts.head rule.now.parts.heads
        × (i + 6 ≤ length rule.now.book.now)
        × T (used_first in_book rule.now.book.now i 6)
        × (length table.now ≡ 96) }
    ensures { result
        ≡ all
        (λ z. not (is_unknown (move 48 (rule_of rule.now.book.now rule.now.parts)) z)
        || safe
        (tabled (classes_of table.now))
        (guarded
        (atoms_at stored left.now 1 (get_or left.now 0 0))
        (move 48 (rule_of rule.now.book.now rule.now.parts)))
        z)
        (map (on_term (up 48)) (args_at rule.now.book.now i 6)) }
{
    for j in 0..6 {
        let u = rule.book[i + j];
        if u == 255 {
            return true;
        }
        if !is_allowed(left, rule, table, u) {
            return false;
        }
    }
    true
}

// Whether the classes in the table are valid for the left atoms, a count byte and so many atoms, and the rule.
pub fn is_valid(left: &[u8], rule: &Rule<'_>, table: &[u8]) -> bool
    requires { AtomsIn in_book left.now 1 (get_or left.now 0 0)
        × AtomsIn in_book rule.now.book.now rule.now.parts.body rule.now.parts.bodies
        × AtomsIn in_book rule.now.book.now rule.now.parts.head rule.now.parts.heads
        × (length table.now ≡ 96) }
    ensures { result
        ≡ valid
        (tabled (classes_of table.now))
        (question_of stored left.now)
        (move 48 (rule_of rule.now.book.now rule.now.parts)) }
{
    let parts = rule.parts;
    for k in 0..parts.heads {
        if !allowed_places(left, rule, table, parts.head + k * 7 + 1) {
            return false;
        }
    }
    true
}
