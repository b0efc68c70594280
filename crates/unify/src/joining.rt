// Putting terms in one class: a question atom on a head atom, under the classes so far, which are lent and changed in
// place. What they are after a no does not count.
ghost use Rattle.std.specs.Prelude.{◌≡◌, cond, map, ◌+◌, ◌≤◌, ◌<◌, T, eqb, length};
ghost use Rattle.covering.specs.Term.{on_term, on_atom};
ghost use Rattle.covering.specs.Record.{stored, term_of, args_at, atom_at, used_first, is_atom};
ghost use Rattle.unification.specs.Classes.{point};
ghost use Rattle.unification.specs.Choice.{place_pairs, atom_pairs};
ghost use Rattle.unification.specs.Step.{up};
ghost use Rattle.unify.specs.Table.{own, join_table, unify_table};
ghost use Rattle.unify.specs.InBytes.{in_book, classes_of, merged};

use crate::byte::{moved, stands_for};

const OWN: [u8; 96] = [
    0, 1, 2, 3, 4, 5, 6, 7, 8, 9, 10, 11, 12, 13, 14, 15, 16, 17, 18, 19, 20, 21, 22, 23, 24, 25,
    26, 27, 28, 29, 30, 31, 32, 33, 34, 35, 36, 37, 38, 39, 40, 41, 42, 43, 44, 45, 46, 47, 48, 49,
    50, 51, 52, 53, 54, 55, 56, 57, 58, 59, 60, 61, 62, 63, 64, 65, 66, 67, 68, 69, 70, 71, 72, 73,
    74, 75, 76, 77, 78, 79, 80, 81, 82, 83, 84, 85, 86, 87, 88, 89, 90, 91, 92, 93, 94, 95,
];

// Each variable in a class of its own.
pub fn all_apart() -> [u8; 96]
    ensures { classes_of result ≡ own 0 96 }
{
    OWN
}

// b where x is v, else x.
fn put_for(x: u8, v: u8, b: u8) -> u8
    ensures { result ≡ cond (eqb x v) b x }
{
    if x == v {
        return b;
    }
    x
}

// Wherever the variable v stands for a class, b stands for it from now on.
fn replaced(table: &mut [u8], v: u8, b: u8)
    requires { (length table.old ≡ 96) × (v < 128) }
    ensures { classes_of table.new ≡ map (point v (term_of b)) (classes_of table.old) }
{
    // By its number, which the law of each entry speaks of; `iter_mut` is no plainer.
    for i in 0..96 {
        table[i] = put_for(table[i], v, b);
    }
}

// The classes that a and b stand for become one, a constant standing for it; two constants are never one.
fn join(table: &mut [u8], a: u8, b: u8) -> bool
    requires { length table.old ≡ 96 }
    ensures { merged result table.new ≡ join_table (classes_of table.old) (term_of a) (term_of b) }
{
    if a == b {
        return true;
    }
    if a < 128 {
        replaced(table, a, b);
        return true;
    }
    if b < 128 {
        replaced(table, b, a);
        return true;
    }
    false
}

// The used places of the question from i on are put with those of the head from k on, which are moved up: as many, each
// with its own.
fn join_places(question: &[u8], book: &[u8], i: usize, k: usize, table: &mut [u8]) -> bool
    requires { (i + 6 ≤ length question.now)
        × (k + 6 ≤ length book.now)
        × T (used_first in_book book.now k 6)
        × (length table.old ≡ 96) }
    ensures { merged result table.new
        ≡ unify_table
        (place_pairs (args_at question.now i 6) (map (on_term (up 48)) (args_at book.now k 6)))
        (classes_of table.old) }
{
    for j in 0..6 {
        let t = question[i + j];
        let u = book[k + j];
        if t == 255 {
            return u == 255;
        }
        if u == 255 {
            return false;
        }
        let a = stands_for(table, t);
        let b = stands_for(table, moved(u));
        if !join(table, a, b) {
            return false;
        }
    }
    true
}

// The question atom at i is put on the head atom at k of the book. Atoms of two relations cost two bytes read.
pub fn join_atoms(question: &[u8], book: &[u8], i: usize, k: usize, table: &mut [u8]) -> bool
    requires { (i + 7 ≤ length question.now)
        × (k + 7 ≤ length book.now)
        × T (is_atom in_book book.now k)
        × (length table.old ≡ 96) }
    ensures { merged result table.new
        ≡ unify_table
        (atom_pairs (atom_at stored question.now i) (on_atom (up 48) (atom_at stored book.now k)))
        (classes_of table.old) }
{
    if question[i] != book[k] {
        return false;
    }
    join_places(question, book, i + 1, k + 1, table)
}
