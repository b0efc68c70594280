// A book whose header was read and is right, and what is wrong after the header: a method for each thing judged.
ghost use Rattle.std.specs.Prelude.{◌≡◌, ◌+◌, ◌*◌, ◌<◌, ◌≤◌, length};
ghost use Rattle.std.proofs.Math.Option.{none};
ghost use Rattle.reading.specs.Header.{atom_size};
ghost use Rattle.reading.specs.Told.{judged};
ghost use Rattle.reading.specs.Verdict.{told, contents as contents_of, wrong_rule, wrong_in_atom, wrong_in_atoms};
ghost use Rattle.reading.specs.Verdict.{wrong_in_rules, wrong_in_question, wrong_byte, loose_variable};
ghost use Rattle.judging.specs.Judged.{HeaderRight, RulesRight, wrong_record};

use super::Header;
use super::answer::{loose_from, used_places};
use super::header::answers;
use super::judge::{wrong_place, wrong_places, wrong_rule};
use super::words::{ANSWER, ANSWERS, atoms_size};
use reading::{Reason, Refused};

// A book with its header, where refusals 2 to 4 do not hit it.
#[derive(Clone, Copy)]
struct Headed<'a> {
    book: &'a [u8],
    header: Header,
    ghost right: { HeaderRight book.now header },
}

impl<'a> Headed<'a> {
    // Refusal 7, in the atom at i.
    fn wrong_in_atom(self, i: usize) -> Result<(), Refused>
        requires { i + atom_size self.book.now ≤ length self.book.now }
        ensures { judged result ≡ told 7 (wrong_in_atom self.entry.book.now i) }
    {
        let book = self.book;
        let h = self.header;
        let r = usize::from(book[i]);
        if r < h.relations {
            let at = h.table + r;
            return wrong_place(book, i + 1, usize::from(book[at]), h.places, h.constants);
        }
        Err(Refused {
            reason: Reason::WrongByte,
            place: i,
        })
    }

    // Refusal 7, in the n atoms from i on.
    fn wrong_in_atoms(self, i: usize, n: usize) -> Result<(), Refused>
        requires { i + atom_size self.book.now * n ≤ length self.book.now }
        ensures { judged result ≡ told 7 (wrong_in_atoms self.entry.book.now i n) }
    {
        let size = 1 + self.header.places;
        for k in 0..n {
            self.wrong_in_atom(i + size * k)?;
        }
        Ok(())
    }

    // Refusal 7, in the atoms of n rules, the first of them at start, which are right and end by end.
    fn wrong_in_rules(self, start: usize, n: usize, end: usize) -> Result<(), Refused>
        requires { (end ≤ length self.book.now) × (wrong_rule self.book.now end start n ≡ none) }
        ensures { judged result ≡ told 7 (wrong_in_rules self.entry.book.now start n) }
    {
        let book = self.book;
        let w = self.header.places;
        let mut s = start;
        for _rule in 0..n {
            let m = usize::from(book[s]) + usize::from(book[s + 1]);
            self.wrong_in_atoms(s + 2, m)?;
            s += 2 + atoms_size(w, m);
        }
        Ok(())
    }

    // Refusal 7, in the answer record, where the header announces one.
    fn wrong_answer(self) -> Result<(), Refused>
        ensures { judged result ≡ told 7 (wrong_record self.entry.book.now) }
    {
        let book = self.book;
        let h = self.header;
        if answers(h) == 0 {
            return Ok(());
        }
        let i = h.question;
        if usize::from(book[i]) != ANSWER {
            return Err(Refused {
                reason: Reason::WrongByte,
                place: i,
            });
        }
        let used = 1 + used_places(book, i + 2, ANSWERS - 1);
        wrong_place(book, i + 1, used, h.places, h.constants)
    }

    // Refusal 7, in the question: its answer record comes before its atoms.
    fn wrong_in_question(self) -> Result<(), Refused>
        ensures { judged result ≡ told 7 (wrong_in_question self.entry.book.now) }
    {
        self.wrong_answer()?;
        let h = self.header;
        let i = h.question + atoms_size(h.places, answers(h));
        self.wrong_in_atoms(i, h.atoms)
    }

    // Refusal 7, in the whole of a book whose rules are right.
    fn wrong_byte(self) -> Result<(), Refused>
        requires { RulesRight self.book.now }
        ensures { judged result ≡ told 7 (wrong_byte self.entry.book.now) }
    {
        let h = self.header;
        self.wrong_in_rules(h.start, h.rules, h.question)?;
        self.wrong_in_question()
    }

    // Refusal 11: the first answer variable that stands in no atom of the question.
    fn loose_variable(self) -> Result<(), Refused>
        ensures { judged result ≡ told 11 (loose_variable self.entry.book.now) }
    {
        let h = self.header;
        if answers(h) == 0 {
            return Ok(());
        }
        loose_from(self.book, h.question + 1, h.atoms, h.places)
    }
}

// What is wrong after the header of a book whose header is right: refusals 5, 6, 7 and 11, in this order.
pub fn contents(book: &[u8], h: Header) -> Result<(), Refused>
    requires { HeaderRight book.now h }
    ensures { judged result ≡ contents_of book.now }
{
    wrong_places(book, h.table, h.relations, h.places)?;
    wrong_rule(book, h.start, h.rules, h.question, h.places)?;
    let headed = Headed {
        book: book,
        header: h,
    };
    headed.wrong_byte()?;
    headed.loose_variable()
}
