// The places of an answer record, and where its variables stand.
ghost use Rattle.std.specs.Prelude.{◌≡◌, ◌+◌, ◌*◌, ◌<◌, ◌≤◌, length};
ghost use Rattle.covering.specs.Lists.{any};
ghost use Rattle.covering.specs.Term.{var, eq_term};
ghost use Rattle.covering.specs.Record.{holding, args_at, atoms_at};
ghost use Rattle.reading.specs.Header.{atom_places};
ghost use Rattle.reading.specs.Refusals.{used_places};
ghost use Rattle.reading.specs.Told.{judged};
ghost use Rattle.reading.specs.Verdict.{told, stands_in, loose_from};

use super::first::refused_at;
use super::words::{UNUSED, variables};
use reading::{Reason, Refused};

// How many of the n places from i on are used: those before the first 255.
pub fn used_places(book: &[u8], i: usize, n: usize) -> usize
    requires { i + n ≤ length book.now }
    ensures { result ≡ used_places book.now i n }
{
    (i..i + n)
        .take_while(|at| usize::from(book[*at]) != UNUSED)
        .count()
}

// Whether the variable b stands in a used place among the n from i on.
fn stands_at(book: &[u8], i: usize, n: usize, b: usize) -> bool
    requires { (i + n ≤ length book.now) × (b < 128) }
    ensures { result ≡ any (eq_term (var b)) (args_at book.now i n) }
{
    (i..i + n)
        .take_while(|at| usize::from(book[*at]) != UNUSED)
        .any(|at| b == usize::from(book[at]))
}

// Whether the byte b is no variable, or stands in one of the n atoms of w places from i on.
fn stands(book: &[u8], i: usize, n: usize, w: usize, b: usize) -> bool
    requires { (i + (1 + w) * n ≤ length book.now) × (w ≤ 6) }
    ensures { result ≡ stands_in (8 * w) (atoms_at (holding w) book.now i n) b }
{
    if variables(w) <= b {
        return true;
    }
    for k in 0..n {
        if stands_at(book, i + (1 + w) * k + 1, w, b) {
            return true;
        }
    }
    false
}

// Refusal 11, in the w places of an answer record from i on: the first variable that stands in none of the n atoms after.
pub fn loose_from(book: &[u8], i: usize, n: usize, w: usize) -> Result<(), Refused>
    requires { (i + w + (1 + w) * n ≤ length book.now) × (w ≡ atom_places book.now) × (w ≤ 6) }
    ensures { judged result ≡ told 11 (loose_from book.now (atoms_at (holding w) book.now (i + w) n) i w) }
{
    let atoms = i + w;
    let loose = (i..atoms).find(|at| !stands(book, atoms, n, w, usize::from(book[*at])));
    refused_at(loose, Reason::LooseAnswer)
}
