// What has no old form: a relation of over four places, a variable above 31. Each function refuses 13 at the first such
// byte.
ghost use Rattle.std.specs.Prelude.{◌≡◌, ◌+◌, ◌*◌, ◌≤◌, length};
ghost use Rattle.reading.specs.Header.{header_of, atom_places};
ghost use Rattle.reading.specs.Told.{judged};
ghost use Rattle.reading.specs.Verdict.{told, SoundBook};
ghost use Rattle.reading.specs.Copy.{wide_places, term_old, late_from, late_in_atoms, no_old_form};
ghost use Rattle.forms.specs.Late.{in_rules};

use book::{Header, answers, read};
use judging::{OLD_PLACES, refused_at};
use reading::{Reason, Refused};

// An old book has the variables 0 to 31.
const OLD_VARIABLES: usize = 32;

// The first constant.
const CONSTANT: usize = 128;

// The first relation of over four places among the n from i on.
fn wide_places(book: &[u8], i: usize, n: usize) -> Result<(), Refused>
    requires { i + n ≤ length book.now }
    ensures { judged result ≡ told 13 (wide_places book.now i n) }
{
    let wide = (i..i + n).find(|at| OLD_PLACES < usize::from(book[*at]));
    refused_at(wide, Reason::NoOldForm)
}

// Whether a byte is no variable above 31.
fn is_old(b: usize) -> bool
    ensures { result ≡ term_old b }
{
    (b < OLD_VARIABLES) | (CONSTANT <= b)
}

// The first variable above 31 among the n places from i on.
fn late_from(book: &[u8], i: usize, n: usize) -> Result<(), Refused>
    requires { i + n ≤ length book.now }
    ensures { judged result ≡ told 13 (late_from book.now i n) }
{
    let late = (i..i + n).find(|at| !is_old(usize::from(book[*at])));
    refused_at(late, Reason::NoOldForm)
}

// The first in n atoms of w places from i on.
fn late_in_atoms(book: &[u8], i: usize, n: usize, w: usize) -> Result<(), Refused>
    requires { (w ≡ atom_places book.now) × (i + (1 + w) * n ≤ length book.now) }
    ensures { judged result ≡ told 13 (late_in_atoms book.now i n) }
{
    for k in 0..n {
        late_from(book, i + (1 + w) * k + 1, w)?;
    }
    Ok(())
}

// The first in the rules of a book with the header h.
fn late_in_rules(book: &[u8], h: Header) -> Result<(), Refused>
    requires { SoundBook book.now × (h ≡ header_of book.now) }
    ensures { judged result ≡ told 13 (in_rules book.now) }
{
    let n = h.rules;
    let w = h.places;
    let mut s = h.start;
    for _rule in 0..n {
        let m = usize::from(book[s]) + usize::from(book[s + 1]);
        late_in_atoms(book, s + 2, m, w)?;
        s += 2 + (1 + w) * m;
    }
    Ok(())
}

// The first byte of a sound book that has no old form: relations first, then rules, then the question with its answer
// record.
pub fn no_old_form(book: &[u8]) -> Result<(), Refused>
    requires { SoundBook book.now }
    ensures { judged result ≡ told 13 (no_old_form book.now) }
{
    let h = read(book);
    wide_places(book, h.table, h.relations)?;
    late_in_rules(book, h)?;
    late_in_atoms(book, h.question, answers(h) + h.atoms, h.places)
}
