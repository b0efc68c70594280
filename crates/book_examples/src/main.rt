// Books that are refused, and books that are not: what `book::check` says of each, a line a book.
#![tactic(auto)]

mod books;

ghost use Rattle.std.specs.Prelude.{◌+◌, ◌<◌, ◌≤◌, ◌≡◌, length};
ghost use Rattle.reading.specs.Header.{form_of, new};
ghost use Rattle.reading.specs.Verdict.{SoundBook};

use books::{asked, bare, sample, small};
use covering::RECORD;
use forms::{BOOK, to_new};
use std::io;
use std::io::Write;

// The verdict on a book.
fn tell<W: Write>(out: &mut W, name: &[u8], book: &[u8]) -> io::Result<()> {
    out.write_all(name)?;
    match book::check(book) {
        Ok(()) => out.write_all(b": sound\n"),
        Err(refused) => {
            let number = u8::from(refused.reason);
            let place = refused.place;
            write!(out, ": refused {number} at {place}\n")
        }
    }
}

// Where the body and the head of the rule at s stand.
fn show_rule<W: Write>(out: &mut W, book: &[u8], s: usize) -> io::Result<()>
    requires { (s + 2 ≤ length book.now) × (form_of book.now ≡ new) }
{
    let r = book::rule_at(book, s);
    write!(out, "rule at {s}: ")?;
    show_span(out, r.body, r.bodies)?;
    out.write_all(b" to ")?;
    show_span(out, r.head, r.heads)?;
    out.write_all(b"\n")
}

fn show_span<W: Write>(out: &mut W, at: usize, n: usize) -> io::Result<()> {
    write!(out, "{n} at {at}")
}

// The bytes of a record.
fn show_record<W: Write>(out: &mut W, r: &[u8; RECORD]) -> io::Result<()> {
    out.write_all(b"question:")?;
    for b in r {
        write!(out, " {b}")?;
    }
    out.write_all(b"\n")
}

// What the readers give of a book, as it is in the new form, where it is sound.
fn show<W: Write>(out: &mut W, book: &[u8]) -> io::Result<()> {
    let mut wide = [0u8; BOOK];
    match to_new(book, &mut wide) {
        Ok(len) => show_new(out, &wide[..len]),
        Err(_) => Ok(()),
    }
}

// The same of a sound book in the new form.
fn show_new<W: Write>(out: &mut W, book: &[u8]) -> io::Result<()>
    requires { SoundBook book.now × (form_of book.now ≡ new) }
{
    let h = book::read(book);
    let n = h.rules;
    let at = book::starts(book);
    for k in 0..n {
        show_rule(out, book, at[k])?;
    }
    let place = at[n];
    write!(out, "{place} is the question's place\n")?;
    let q = book::question(book);
    show_record(out, &q)
}

// The sample with one byte, and with two bytes, changed.
fn one<W: Write>(out: &mut W, name: &[u8], i: usize, x: u8) -> io::Result<()>
    requires { i < 48 }
{
    let mut s = sample();
    s[i] = x;
    tell(out, name, &s)
}

fn two<W: Write>(out: &mut W, name: &[u8], i: usize, x: u8, j: usize, y: u8) -> io::Result<()>
    requires { (i < 48) × (j < 48) }
{
    let mut s = sample();
    s[i] = x;
    s[j] = y;
    tell(out, name, &s)
}

// The first n bytes of the sample, the first of them changed to x.
fn cut<W: Write>(out: &mut W, name: &[u8], n: usize, x: u8) -> io::Result<()>
    requires { n ≤ 48 }
{
    let mut s = sample();
    s[0] = x;
    tell(out, name, &s[..n])
}

// The small book with one byte changed.
fn small_one<W: Write>(out: &mut W, name: &[u8], i: usize, x: u8) -> io::Result<()>
    requires { i < 25 }
{
    let mut s = small();
    s[i] = x;
    tell(out, name, &s)
}

// The book with answer places with one byte, and with two bytes, changed.
fn asked_one<W: Write>(out: &mut W, name: &[u8], i: usize, x: u8) -> io::Result<()>
    requires { i < 35 }
{
    let mut s = asked();
    s[i] = x;
    tell(out, name, &s)
}

fn asked_two<W: Write>(out: &mut W, name: &[u8], i: usize, x: u8, j: usize, y: u8) -> io::Result<()>
    requires { (i < 35) × (j < 35) }
{
    let mut s = asked();
    s[i] = x;
    s[j] = y;
    tell(out, name, &s)
}

fn sound<W: Write>(out: &mut W) -> io::Result<()> {
    tell(out, b"example", &sample())?;
    tell(out, b"no rule", &bare())?;
    two(out, b"1000 explorations", 8, 232, 9, 3)?;
    one(out, b"127 constants", 2, 127)?;
    one(out, b"variable 31", 24, 31)?;
    two(out, b"constant 0 of 1", 2, 1, 24, 128)?;
    two(out, b"constant 126 of 127", 2, 127, 24, 254)?;
    two(out, b"no body atom", 21, 0, 22, 3)
}

fn twos<W: Write>(out: &mut W) -> io::Result<()> {
    cut(out, b"no byte", 0, 3)?;
    cut(out, b"17 bytes", 17, 3)?;
    cut(out, b"18 bytes", 18, 3)?;
    cut(out, b"17 bytes, no relation", 17, 0)
}

fn threes<W: Write>(out: &mut W) -> io::Result<()> {
    one(out, b"no relation", 0, 0)?;
    one(out, b"65 relations", 0, 65)?;
    one(out, b"259 relations", 1, 1)?;
    one(out, b"128 constants", 2, 128)?;
    one(out, b"33 rules", 4, 33)
}

fn more_threes<W: Write>(out: &mut W) -> io::Result<()> {
    one(out, b"no question atom", 6, 0)?;
    one(out, b"9 question atoms", 6, 9)?;
    one(out, b"no exploration", 8, 0)?;
    two(out, b"1001 explorations", 8, 233, 9, 3)
}

fn fours<W: Write>(out: &mut W) -> io::Result<()> {
    one(out, b"relations not at 18", 10, 19)?;
    one(out, b"rules not after the relations", 12, 22)?;
    one(out, b"question before the rules", 14, 20)?;
    one(out, b"total not the question's end", 16, 49)?;
    cut(out, b"a byte short", 47, 3)
}

// A book of 65,536 bytes whose sums are right when they are cut to 16 bits.
fn long<W: Write>(out: &mut W) -> io::Result<()> {
    let mut s = [0u8; 65536];
    s[0] = 1;
    s[6] = 1;
    s[8] = 1;
    s[10] = 18;
    s[12] = 19;
    s[14] = 251;
    s[15] = 255;
    tell(out, b"65536 bytes", &s)
}

fn fives<W: Write>(out: &mut W) -> io::Result<()> {
    one(out, b"no place", 18, 0)?;
    one(out, b"5 places", 20, 5)?;
    one(out, b"255 places", 19, 255)?;
    two(out, b"two relations wrong", 20, 0, 18, 0)
}

fn sixes<W: Write>(out: &mut W) -> io::Result<()> {
    one(out, b"5 body atoms", 21, 5)?;
    one(out, b"no head atom", 22, 0)?;
    one(out, b"5 head atoms", 22, 5)?;
    one(out, b"the rule runs past", 22, 3)
}

fn more_sixes<W: Write>(out: &mut W) -> io::Result<()> {
    one(out, b"the rules end before the question", 22, 1)?;
    one(out, b"no rule, bytes left", 4, 0)?;
    one(out, b"no byte for a second rule", 4, 2)?;
    tell(out, b"one count byte fits", &small())?;
    small_one(out, b"no rule, a byte left", 4, 0)?;
    two(out, b"two rules wrong", 21, 5, 4, 2)
}

fn sevens<W: Write>(out: &mut W) -> io::Result<()> {
    one(out, b"relation 3 of 3", 23, 3)?;
    one(out, b"variable 32", 24, 32)?;
    one(out, b"byte 127", 24, 127)?;
    one(out, b"constant 0 of 0", 24, 128)?;
    two(out, b"constant 1 of 1", 2, 1, 24, 129)
}

fn more_sevens<W: Write>(out: &mut W) -> io::Result<()> {
    two(out, b"255 in a used place", 2, 127, 24, 255)?;
    one(out, b"an unused place used", 25, 0)?;
    one(out, b"in a head", 35, 255)?;
    one(out, b"in the question", 43, 255)?;
    one(out, b"the last byte", 47, 0)
}

fn competing<W: Write>(out: &mut W) -> io::Result<()> {
    two(out, b"3 and 4", 4, 33, 10, 19)?;
    two(out, b"4 and 5", 10, 19, 18, 0)?;
    two(out, b"5 and 6", 20, 5, 21, 5)?;
    two(out, b"6 and 7, 7 earlier", 22, 1, 23, 9)?;
    two(out, b"two bytes wrong", 47, 0, 24, 99)?;
    two(out, b"a bad relation hides its places", 23, 9, 24, 99)
}

// Books whose question has answer places.
fn answers<W: Write>(out: &mut W) -> io::Result<()> {
    tell(out, b"with an answer record", &asked())?;
    asked_one(out, b"a total with neither", 16, 34)?;
    asked_one(out, b"no answer record announced", 16, 30)?;
    asked_one(out, b"an answer relation 0", 20, 0)?;
    one(out, b"relation 255, not announced", 38, 255)?;
    asked_one(out, b"no answer place", 21, 255)
}

fn more_answers<W: Write>(out: &mut W) -> io::Result<()> {
    asked_one(out, b"constant 1 of 1 to answer", 22, 129)?;
    asked_one(out, b"a place after a 255", 24, 0)?;
    asked_one(out, b"a variable of the second atom", 21, 1)?;
    asked_one(out, b"a variable of no atom", 21, 2)?;
    asked_two(out, b"two variables of no atom", 22, 3, 21, 2)?;
    asked_two(out, b"7 and 11, 11 earlier", 34, 0, 21, 2)
}

fn main(rt: HostRuntime) -> io::Result<()> {
    let mut out = rt.stdout();
    sound(&mut out)?;
    twos(&mut out)?;
    threes(&mut out)?;
    more_threes(&mut out)?;
    fours(&mut out)?;
    long(&mut out)?;
    fives(&mut out)?;
    sixes(&mut out)?;
    more_sixes(&mut out)?;
    sevens(&mut out)?;
    more_sevens(&mut out)?;
    competing(&mut out)?;
    answers(&mut out)?;
    more_answers(&mut out)?;
    show(&mut out, &sample())?;
    show(&mut out, &asked())?;
    out.flush()
}
