// A sound book put into a buffer in a wanted form.
ghost use Rattle.std.specs.Prelude.{◌≡◌, ℕ, ◌+◌, ◌*◌, ◌≤◌, ◌<◌, length, get_or, take, drop};
ghost use Rattle.covering.specs.Lists.{gather};
ghost use Rattle.covering.specs.Put.{Puts};
ghost use Rattle.reading.specs.Word.{word_bytes};
ghost use Rattle.reading.specs.Header.{header_of, atom_places};
ghost use Rattle.judging.specs.Forms.{form_named};
ghost use Rattle.reading.specs.Book.{book_of, rule_at};
ghost use Rattle.reading.specs.Written.{rule_bytes, rules_bytes, book_bytes};
ghost use Rattle.reading.specs.Copy.{copy_room};
ghost use Rattle.forms.specs.Ready.{RuleReady, BookReady};

use book::{Header, answers, read};
use judging::Form;
use records::copy_atoms;
use writing::put_word;

// Puts n bytes of from, the first at i, and answers where they end. Byte by byte: a copy of parts, of which the compiler
// doesn't know that they lie apart, would have programs in C bring a function more.
fn put_bytes(from: &[u8], i: usize, n: usize, out: &mut [u8], at: usize) -> usize
    requires { (i + n ≤ length from.now) × (at + n ≤ length out.old) }
    ensures { Puts
        (take n (drop i from.now))
        out.old
        at
        result
        out.new }
{
    for k in 0..n {
        out[at + k] = from[i + k];
    }
    at + n
}

// Puts words at the front, and answers where they end.
fn put_words(words: &[usize], out: &mut [u8]) -> usize
    requires { ((k : ℕ) → get_or words.now k 0 < 65536) × (2 * length words.now ≤ length out.old) }
    ensures { Puts
        (gather word_bytes words.now)
        out.old
        0
        result
        out.new }
{
    let mut at = 0;
    for word in words {
        at = put_word(out, at, *word);
    }
    at
}

// Puts the rule that starts at s, whose atoms have w places, and answers where it ends.
fn put_rule(book: &[u8], s: usize, w: usize, out: &mut [u8], at: usize, form: Form) -> usize
    requires { RuleReady book.now s (form_named form)
        × (w ≡ atom_places book.now)
        × (at + length (rule_bytes (form_named form) (rule_at book.now s)) ≤ length out.old) }
    ensures { Puts
        (rule_bytes (form_named form) (rule_at book.now s))
        out.old
        at
        result
        out.new }
{
    let v = form.places();
    let bodies = book[s];
    let heads = book[s + 1];
    out[at] = bodies;
    out[at + 1] = heads;
    let b = usize::from(bodies);
    let h = usize::from(heads);
    let end = copy_atoms(book, s + 2, b, w, out, at + 2, v);
    copy_atoms(book, s + 2 + (1 + w) * b, h, w, out, end, v)
}

// Puts the rules of a book with the header h, and answers where they end.
fn put_rules(book: &[u8], h: Header, out: &mut [u8], at: usize, form: Form) -> usize
    requires { BookReady book.now (form_named form)
        × (h ≡ header_of book.now)
        × (at + length (rules_bytes (form_named form) (book_of book.now).rules) ≤ length out.old) }
    ensures { Puts
        (rules_bytes (form_named form) (book_of book.now).rules)
        out.old
        at
        result
        out.new }
{
    let n = h.rules;
    let w = h.places;
    let mut s = h.start;
    let mut end = at;
    for _rule in 0..n {
        end = put_rule(book, s, w, out, end, form);
        s += 2 + (1 + w) * (usize::from(book[s]) + usize::from(book[s + 1]));
    }
    end
}

// Puts the book, and answers where it ends. The header is put last, once it is known where the rules and the question
// end: nine words, and in the new form a tenth.
pub fn put_book(book: &[u8], out: &mut [u8], form: Form) -> usize
    requires { BookReady book.now (form_named form)
        × (copy_room ≤ length out.old) }
    ensures { Puts
        (book_bytes (form_named form) (book_of book.now))
        out.old
        0
        result
        out.new }
{
    let h = read(book);
    let table = form.header();
    let v = form.places();
    let start = put_bytes(book, h.table, h.relations, out, table);
    let question = put_rules(book, h, out, start, form);
    let n = answers(h) + h.atoms;
    let end = copy_atoms(book, h.question, n, h.places, out, question, v);
    let words = [
        h.relations,
        h.constants,
        h.rules,
        h.atoms,
        h.allowed,
        table,
        start,
        question,
        end,
        v,
    ];
    put_words(&words[..table / 2], out);
    end
}
