// What is wrong with a header, and whether it announces an answer record.
ghost use Rattle.std.specs.Prelude.{◌≡◌, cond, ◌<◌, eqb};
ghost use Rattle.reading.specs.Header.{end_with};
ghost use Rattle.reading.specs.Verdict.{form_in, in_table, offsets_right};

use super::Header;
use super::form::Form;
use super::words::{atoms_size, within};

// Whether the counts are in the table, and the places those of the form.
pub fn in_table(h: Header) -> bool
    ensures { result ≡ in_table h }
{
    let p = within(h.relations, 1, 64);
    let c = within(h.constants, 0, 127);
    let r = within(h.rules, 0, 32);
    let n = within(h.atoms, 1, 8);
    let l = within(h.allowed, 1, 1000);
    let w = h.places == Form::told_by(h.table).places();
    p & (c & (r & (n & (l & w))))
}

// Whether the offsets and the total are those of a book of so many bytes, without an answer record or with one.
pub fn offsets_right(h: Header, size: usize) -> bool
    requires { (h.relations < 65536) × (h.atoms < 65536) × (h.question < 65536) }
    ensures { result ≡ offsets_right h size }
{
    let form = Form::told_by(h.table);
    let first = form.header();
    let w = form.places();
    let t = h.table == first;
    let s = h.start == first + h.relations;
    let q = h.start <= h.question;
    let e = h.total == h.question + atoms_size(w, h.atoms);
    let a = h.total == h.question + atoms_size(w, h.atoms + 1);
    let z = h.total == size;
    t & (s & (q & ((e | a) & z)))
}

// How many answer records the question has: the total announces one, or there is none.
pub fn answers(h: Header) -> usize
    requires { (h.atoms < 65536) × (h.question < 65536) }
    ensures { result ≡ cond (eqb h.total (end_with (form_in h) h.question h.atoms)) 1 0 }
{
    let w = Form::told_by(h.table).places();
    if h.total == h.question + atoms_size(w, h.atoms + 1) {
        return 1;
    }
    0
}
