// What one rule makes of one question: each valid choice's number and its rewriting, a book a listing. The relation
// numbers are in the order of the book's relations.
#![tactic(auto)]

ghost use Rattle.std.specs.Prelude.{◌≡◌};
ghost use Rattle.reading.specs.Header.{form_of, new};
ghost use Rattle.reading.specs.Verdict.{SoundBook};
ghost use Rattle.lister.specs.Listing.{QuestionIn, RuleIn};

use covering::RECORD;
use forms::{BOOK, to_new};
use lister::Rule;
use std::fmt::{Display, Formatter};
use std::io::Write;
use std::{fmt, io};

// No choice has a number as large: five digits' values for each of eight atoms.
const MOST: usize = 390625;

// 01, example 4: person(x) to parent(x,y); question parent(v0,c0).
fn example4() -> [u8; 37] {
    *b"\x02\0\x01\0\x01\0\x01\0\x64\0\x12\0\x14\0\x20\0\x25\0\x01\x02\x01\x01\0\0\xff\xff\xff\
       \x01\0\x01\xff\xff\x01\0\x80\xff\xff"
}

// 01, example 5: the same rule; question parent(v0,v1) dentist(v1).
fn example5() -> [u8; 43] {
    *b"\x03\0\0\0\x01\0\x02\0\x64\0\x12\0\x15\0\x21\0\x2b\0\x01\x02\x01\x01\x01\0\0\xff\xff\xff\
       \x01\0\x01\xff\xff\x01\0\x01\xff\xff\x02\x01\xff\xff\xff"
}

// 01, example 6: b(x) to r(x,y) r(y,z) r(z,x); question r(v0,v1) r(v1,v0).
fn example6() -> [u8; 52] {
    *b"\x02\0\0\0\x01\0\x02\0\x64\0\x12\0\x14\0\x2a\0\x34\0\x01\x02\x01\x03\0\0\xff\xff\xff\
       \x01\0\x01\xff\xff\x01\x01\x02\xff\xff\x01\x02\0\xff\xff\x01\0\x01\xff\xff\x01\x01\0\xff\xff"
}

// 01, example 7: b(x) to r(x,y) r(y,x); question r(v0,v1) r(v1,v2) r(v2,v0).
fn example7() -> [u8; 52] {
    *b"\x02\0\0\0\x01\0\x03\0\x64\0\x12\0\x14\0\x25\0\x34\0\x01\x02\x01\x02\0\0\xff\xff\xff\
       \x01\0\x01\xff\xff\x01\x01\0\xff\xff\x01\0\x01\xff\xff\x01\x01\x02\xff\xff\x01\x02\0\xff\xff"
}

// 01, example 8: twin(x,y) to m(z,x) m(z,y); question m(v0,v1) m(v0,v2).
fn example8() -> [u8; 47] {
    *b"\x02\0\0\0\x01\0\x02\0\x64\0\x12\0\x14\0\x25\0\x2f\0\x02\x02\x01\x02\0\0\x01\xff\xff\
       \x01\x02\0\xff\xff\x01\x02\x01\xff\xff\x01\0\x01\xff\xff\x01\0\x02\xff\xff"
}

// 01, example 9: s(x) to p(x,x); question p(v0,v1) p(v1,v0).
fn example9() -> [u8; 42] {
    *b"\x02\0\0\0\x01\0\x02\0\x64\0\x12\0\x14\0\x20\0\x2a\0\x01\x02\x01\x01\0\0\xff\xff\xff\
       \x01\0\0\xff\xff\x01\0\x01\xff\xff\x01\x01\0\xff\xff"
}

// 000, Example 1: q(x) to p(x,y); question p(u,v) p(w,v) r(u,w).
fn one_piece() -> [u8; 48] {
    *b"\x03\0\0\0\x01\0\x03\0\x64\0\x12\0\x15\0\x21\0\x30\0\x01\x02\x02\x01\x01\0\0\xff\xff\xff\
       \x01\0\x01\xff\xff\x01\0\x01\xff\xff\x01\x02\x01\xff\xff\x02\0\x02\xff\xff"
}

// 000, Example 3: b(x) to p(x,y); question r(u,v) r(v,w) p(u,z) p(v,z) p(v,t) p(w,t) p1(u) p2(w).
fn two_pieces() -> [u8; 75] {
    *b"\x05\0\0\0\x01\0\x08\0\x64\0\x12\0\x17\0\x23\0\x4b\0\x02\x02\x01\x01\x01\x01\x01\
       \x04\0\xff\xff\xff\x01\0\x01\xff\xff\0\0\x01\xff\xff\0\x01\x02\xff\xff\x01\0\x03\xff\xff\
       \x01\x01\x03\xff\xff\x01\x01\x04\xff\xff\x01\x02\x04\xff\xff\x02\0\xff\xff\xff\
       \x03\x02\xff\xff\xff"
}

// 002: twin(x,y) to motherOf(z,x) motherOf(z,y); question motherOf(v,w) motherOf(v,t) Female(w) Male(t).
fn twins() -> [u8; 59] {
    *b"\x04\0\0\0\x01\0\x04\0\x64\0\x12\0\x16\0\x27\0\x3b\0\x02\x02\x01\x01\x01\x02\0\0\x01\xff\xff\
       \x01\x02\0\xff\xff\x01\x02\x01\xff\xff\x01\0\x01\xff\xff\x01\0\x02\xff\xff\x02\x01\xff\xff\xff\
       \x03\x02\xff\xff\xff"
}

// A term as a place holds it: v and a variable's number, or c and a constant's.
#[derive(Clone, Copy)]
struct Term(u8);

impl Display for Term {
    fn fmt<W: fmt::Write>(&self, f: &mut Formatter<W>) -> fmt::Result {
        let b = self.0;
        if b < 128 {
            return write!(f, "v{b}");
        }
        let constant = b - 128;
        write!(f, "c{constant}")
    }
}

// An atom's bytes: a space, its relation, and its terms with commas between.
#[derive(Clone, Copy)]
struct Atom<'a>(&'a [u8]);

impl<'a> Display for Atom<'a> {
    fn fmt<W: fmt::Write>(&self, f: &mut Formatter<W>) -> fmt::Result {
        let [relation, places @ ..] = self.0 else {
            return Ok(());
        };
        write!(f, " r{relation}(")?;
        for (w, b) in places.iter().enumerate() {
            if *b != 255 {
                if 0 < w {
                    f.write_str(",")?;
                }
                Term(*b).fmt(f)?;
            }
        }
        f.write_str(")")
    }
}

// A choice's number, and its rewriting.
fn show<W: Write>(out: &mut W, choice: usize, record: &[u8; RECORD]) -> io::Result<()> {
    write!(out, "{choice}:")?;
    let n = usize::from(record[0]);
    for atom in record[1..].chunks_exact(7).take(n) {
        let shown = Atom(atom);
        write!(out, "{shown}")?;
    }
    out.write_all(b"\n")
}

// The question's rewritings by a rule, choices ascending.
fn list<W: Write>(out: &mut W, question: &[u8; RECORD], rule: &Rule<'_>) -> io::Result<()>
    requires { QuestionIn question.now × RuleIn rule.now.book.now rule.now.parts }
{
    let unknowns = lister::has_unknowns(rule);
    let mut from: usize = 0;
    let mut rewriting = [255u8; RECORD];
    // What is asked next follows from what was found: no range goes over it, and the bound ends it.
    while from < MOST {
        let found = lister::next(question, rule, unknowns, from, &mut rewriting);
        let Some(choice) = found else {
            return Ok(());
        };
        show(out, choice, &rewriting)?;
        from = choice + 1;
    }
    Ok(())
}

// The rewritings of a book's question by its first rule.
fn tell<W: Write>(out: &mut W, name: &[u8], book: &[u8]) -> io::Result<()> {
    out.write_all(name)?;
    out.write_all(b"\n")?;
    let mut wide = [0u8; BOOK];
    match to_new(book, &mut wide) {
        Ok(len) => tell_new(out, &wide[..len]),
        Err(_) => out.write_all(b"refused\n"),
    }
}

// The same of a sound book in the new form.
fn tell_new<W: Write>(out: &mut W, book: &[u8]) -> io::Result<()>
    requires { SoundBook book.now × (form_of book.now ≡ new) }
{
    let h = book::read(book);
    if h.rules == 0 {
        return out.write_all(b"no rule\n");
    }
    let at = book::starts(book);
    let question = book::question(book);
    let parts = book::rule_at(book, at[0]);
    list(out, &question, &Rule { book, parts })
}

fn main(rt: HostRuntime) -> io::Result<()> {
    let mut out = rt.stdout();
    tell(&mut out, b"example 4", &example4())?;
    tell(&mut out, b"example 5", &example5())?;
    tell(&mut out, b"example 6", &example6())?;
    tell(&mut out, b"example 7", &example7())?;
    tell(&mut out, b"example 8", &example8())?;
    tell(&mut out, b"example 9", &example9())?;
    tell(&mut out, b"000, Example 1", &one_piece())?;
    tell(&mut out, b"000, Example 3", &two_pieces())?;
    tell(&mut out, b"002, twins", &twins())?;
    out.flush()
}
