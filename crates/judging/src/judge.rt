// What is wrong with a book, a function for each thing that is judged. Each refuses at the first place.
ghost use Rattle.std.specs.Prelude.{◌≡◌, cond, Some, None, ◌+◌, ◌*◌, ◌<◌, ◌≤◌, length};
ghost use Rattle.reading.specs.Header.{constants, atom_places};
ghost use Rattle.reading.specs.Book.{rule_end};
ghost use Rattle.reading.specs.Told.{judged};
ghost use Rattle.reading.specs.Refusals.{place_allowed};
ghost use Rattle.reading.specs.Verdict.{told, wrong_places, rule_right, wrong_rule, wrong_place};

use super::first::refused_at;
use super::words::{atoms_size, variables, within};
use reading::{Reason, Refused};

// Refusal 5: the first of n relations, from i on, whose number of places is wrong in a book whose atoms have w.
pub fn wrong_places(book: &[u8], i: usize, n: usize, w: usize) -> Result<(), Refused>
    requires { (i + n ≤ length book.now) × (w ≡ atom_places book.now) }
    ensures { judged result ≡ told 5 (wrong_places book.now i n) }
{
    let wrong = (i..i + n).find(|at| !within(usize::from(book[*at]), 1, w));
    refused_at(wrong, Reason::WrongRelation)
}

// Where the rule at s ends, if it is right.
fn rule_end(book: &[u8], s: usize, end: usize, w: usize) -> Option<usize>
    requires { (s ≤ end) × (end ≤ length book.now) × (w ≡ atom_places book.now) }
    ensures { result ≡ cond (rule_right book.now end s) (Some (rule_end book.now s)) None }
{
    if end - s < 2 {
        return None;
    }
    let b = usize::from(book[s]);
    let h = usize::from(book[s + 1]);
    let e = s + 2 + atoms_size(w, b + h);
    if within(b, 0, 4) & (within(h, 1, 4) & (e <= end)) {
        return Some(e);
    }
    None
}

// Refusal 6: the first of n rules, from start on, that is wrong, or where they end, if that is before end.
pub fn wrong_rule(book: &[u8], start: usize, n: usize, end: usize, w: usize) -> Result<(), Refused>
    requires { (start ≤ end) × (end ≤ length book.now) × (w ≡ atom_places book.now) }
    ensures { judged result ≡ told 6 (wrong_rule book.now end start n) }
{
    let mut s = start;
    for _rule in 0..n {
        let Some(next) = rule_end(book, s, end, w) else {
            return Err(Refused {
                reason: Reason::WrongRule,
                place: s,
            });
        };
        s = next;
    }
    if s < end {
        return Err(Refused {
            reason: Reason::WrongRule,
            place: s,
        });
    }
    Ok(())
}

// Whether a place byte is allowed in a book of k variables and c constants.
fn allowed(b: usize, used: bool, k: usize, c: usize) -> bool
    requires { c ≤ 127 }
    ensures { result ≡ place_allowed k c used b }
{
    if used {
        let v = b < k;
        return v | ((128 <= b) & (b < 128 + c));
    }
    b == 255
}

// Refusal 7, in the n places of an atom from i on, of which the first `used` are used.
pub fn wrong_place(book: &[u8], i: usize, used: usize, n: usize, c: usize) -> Result<(), Refused>
    requires { (i + n ≤ length book.now) × (n ≡ atom_places book.now) × (c ≤ 127) × (c ≡ constants book.now) }
    ensures { judged result ≡ told 7 (wrong_place book.now used i 0 n) }
{
    let k = variables(n);
    let wrong = (i..i + n).find(|at| !allowed(usize::from(book[*at]), *at - i < used, k, c));
    refused_at(wrong, Reason::WrongByte)
}
