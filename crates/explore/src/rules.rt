// The rules of a book, read once for a run.
ghost use Rattle.std.specs.Prelude.{◌≡◌};
ghost use Rattle.reading.specs.Header.{form_of, new};
ghost use Rattle.reading.specs.Verdict.{SoundBook};

use super::Head;
use super::related::{RULES, head_sets};
use super::whole_run::answer_records;
use std::marker::Model;

// The rules of a sound book in the new form: how many they are, where each starts, and what is known of its head;
// and how many answer records the book's question has.
#[derive(Drop)]
pub struct Rules<'a> {
    pub book: &'a [u8],
    pub count: usize,
    pub starts: [usize; 33],
    pub heads: [Head; RULES],
    pub answers: u8,
}

// Clauses see the book.
impl<'a> Model for Rules<'a> {
    ghost use Rattle.std.specs.Prelude.{List, ℕ};
    ghost use Rattle.explore.specs.Related.{RulesRead};

    ghost Value = { List ℕ };

    ghost view = { λ r. r.book.now };

    ghost invariant = { λ r. RulesRead r.book.now r.count r.starts r.heads r.answers };
}

impl<'a> Rules<'a> {
    // Those of the book.
    pub fn read(book: &'a [u8]) -> Self
        requires { SoundBook book.now × (form_of book.now ≡ new) }
        ensures { result ≡ book.now }
    {
        let count = book::read(book).rules;
        let starts = book::starts(book);
        let heads = head_sets(book, count, &starts);
        let answers = answer_records(book);
        Rules {
            book,
            count,
            starts,
            heads,
            answers,
        }
    }
}
