// The stored book: its header in either form, and of a book in the new form its rules and its question.
#![tactic(auto)]

ghost use Rattle.std.specs.Prelude.{◌≡◌, ◌+◌, ◌≤◌, ltb, length};
ghost use Rattle.reading.specs.Header.{HeaderRead, header_of, relations_at, header_size, form_of, new};
ghost use Rattle.reading.specs.Book.{book_of};
ghost use Rattle.reading.specs.Told.{judged};
ghost use Rattle.reading.specs.Verdict.{verdict, SoundBook};
ghost use Rattle.book.specs.Parts.{StartsAt, parts_at};
ghost use Rattle.covering.specs.Asking.{joined};
ghost use Rattle.covering.specs.Record.{stored};
ghost use Rattle.covering.specs.Buffer.{held_in, record_room};

use covering::RECORD;
pub use judging::answers;
use judging::{ATOM, Form, OLD_PLACES, contents, in_table, offsets_right, word};
pub use reading::Header;
use reading::{Reason, Refused};

// Where the body and the head of a rule start in the book, and how many atoms each has.
#[derive(Clone, Copy)]
pub struct Parts {
    pub body: usize,
    pub bodies: usize,
    pub head: usize,
    pub heads: usize,
}

// The places that the header of a book with its relations at `table` tells: its tenth word, if it has one.
fn places(book: &[u8], table: usize) -> usize
    requires { (table ≡ relations_at book.now) × (header_size book.now ≤ length book.now) }
    ensures { result ≡ (header_of book.now).places }
{
    match Form::told_by(table) {
        Form::New => word(book, 18),
        Form::Old => OLD_PLACES,
    }
}

// The header of a book.
pub fn read(book: &[u8]) -> Header
    requires { header_size book.now ≤ length book.now }
    ensures { HeaderRead book.now result }
{
    let table = word(book, 10);
    Header {
        relations: word(book, 0),
        constants: word(book, 2),
        rules: word(book, 4),
        atoms: word(book, 6),
        allowed: word(book, 8),
        table: table,
        start: word(book, 12),
        question: word(book, 14),
        total: word(book, 16),
        places: places(book, table),
    }
}

// Whether a book has fewer bytes than the header of its form, which the relations' offset tells.
fn is_short(book: &[u8]) -> bool
    ensures { result ≡ ltb (length book.now) (header_size book.now) }
{
    if book.len() < Form::Old.header() {
        return true;
    }
    book.len() < Form::told_by(word(book, 10)).header()
}

// Whether a book is refused, for whatever bytes: the smallest number that applies, at the earliest place.
pub fn check(book: &[u8]) -> Result<(), Refused>
    ensures { judged result ≡ verdict book.now }
{
    if is_short(book) {
        return Err(Refused {
            reason: Reason::ShortBook,
            place: 0,
        });
    }
    let h = read(book);
    if !in_table(h) {
        return Err(Refused {
            reason: Reason::OutsideTable,
            place: 0,
        });
    }
    if !offsets_right(h, book.len()) {
        return Err(Refused {
            reason: Reason::WrongOffset,
            place: 0,
        });
    }
    contents(book, h)
}

// Where each rule of a sound book in the new form starts, and where the rules end.
pub fn starts(book: &[u8]) -> [usize; 33]
    requires { SoundBook book.now × (form_of book.now ≡ new) }
    ensures { StartsAt book.now result }
{
    let h = read(book);
    let n = h.rules;
    let mut at = [0usize; 33];
    let mut s = h.start;
    at[0] = s;
    for k in 0..n {
        s += 2 + ATOM * (usize::from(book[s]) + usize::from(book[s + 1]));
        at[k + 1] = s;
    }
    at
}

// The parts of the rule of a book in the new form that starts at s.
pub fn rule_at(book: &[u8], s: usize) -> Parts
    requires { (s + 2 ≤ length book.now) × (form_of book.now ≡ new) }
    ensures { result ≡ parts_at book.now s }
{
    let b = usize::from(book[s]);
    let h = usize::from(book[s + 1]);
    Parts {
        body: s + 2,
        bodies: b,
        head: s + 2 + ATOM * b,
        heads: h,
    }
}

// The question of a sound book in the new form as a record that counts its answer record as an atom, the rest 255.
pub fn question(book: &[u8]) -> [u8; RECORD]
    requires { SoundBook book.now × (form_of book.now ≡ new) }
    ensures { result ≡ held_in stored record_room (joined (book_of book.now).question) }
{
    let h = read(book);
    let q = h.question;
    let count = answers(h) + h.atoms;
    let n = ATOM * count;
    let mut r = [255u8; RECORD];
    r[0] = count as u8;
    r[1..1 + n].copy_from_slice(&book[q..q + n]);
    r
}
