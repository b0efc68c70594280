// Printing: a book's answer, as lines of text.
#![tactic(auto)]

mod lines;
mod put;

ghost use Rattle.std.specs.Prelude.{◌≡◌, ◌+◌, ◌≤◌, length};
ghost use Rattle.covering.specs.Put.{Puts};
ghost use Rattle.covering.specs.Record.{new_places};
ghost use Rattle.reading.specs.Word.{word as word_at};
ghost use Rattle.reading.specs.Header.{form_of, new};
ghost use Rattle.reading.specs.Told.{number_of};
ghost use Rattle.exploration.specs.Answer.{union, refusal, result as result_of};
ghost use Rattle.exploration.specs.Union.{output_size, members_of, explored_of};
ghost use Rattle.printing.specs.Printed.{printed};
ghost use Rattle.printing.specs.Answer.{lines_of, text_size};
ghost use Rattle.printing.specs.Text.{HasRoom, Adds};
ghost use Rattle.printing.specs.Printable.{UnionStands};

use forms::{BOOK, to_new};
use put::Text;
use reading::Refused;

// The little-endian word at i.
fn word(s: &[u8], i: usize) -> usize
    requires { i + 2 ≤ length s.now }
    ensures { result ≡ word_at s.now i }
{
    usize::from(u16::from_le_bytes([s[i], s[i + 1]]))
}

// Prints the union that stands in an output, whose members have so many answer records.
fn print(output: &[u8], answers: u8, text: &mut Text)
    requires { UnionStands answers output.now
        × HasRoom (printed (union (members_of new_places answers output.now) (explored_of output.now))) text.old }
    ensures { Adds
        (printed (union (members_of new_places answers output.now) (explored_of output.now)))
        text.old
        text.new }
{
    let members = word(output, 0);
    let explored = word(output, 2);
    let first = word(output, 4);
    text.put_line(b"members ", members, b" explored ", explored);
    text.put_members(output, first, members, answers);
}

// Prints a refusal.
fn print_refusal(refused: Refused, text: &mut Text)
    requires { HasRoom (printed (refusal (number_of refused.reason) refused.place)) text.old }
    ensures { Adds (printed (refusal (number_of refused.reason) refused.place)) text.old text.new }
{
    let number = u8::from(refused.reason);
    text.put_line(b"refused ", usize::from(number), b" at ", refused.place);
}

// The bytes that the longest text needs, and more.
pub const TEXT: usize = 24576;

// Prints the answer to a book in the new form, whose members have six places an atom as all that is printed has.
fn answer_new(book: &[u8], text: &mut Text)
    requires { (form_of book.now ≡ new) × (text.old.end + text_size ≤ length text.old.room.now) }
    ensures { Adds (printed (result_of book.now output_size)) text.old text.new }
{
    let mut output = [0u8; explore::OUTPUT];
    match explore::run(book, &mut output) {
        Ok(_) => print(&output, explore::answer_records(book), text),
        Err(refused) => print_refusal(refused, text),
    }
}

// Prints the answer to a book. What is printed does not tell the forms apart, so the book is printed as it is in the
// new form.
fn answer_any(book: &[u8], text: &mut Text)
    requires { text.old.end + text_size ≤ length text.old.room.now }
    ensures { Adds (printed (result_of book.now output_size)) text.old text.new }
{
    let mut wide = [0u8; BOOK];
    match to_new(book, &mut wide) {
        Ok(len) => answer_new(&wide[..len], text),
        Err(refused) => print_refusal(refused, text),
    }
}

// Prints the answer to a book to the front of the text, and answers where it ends. A text that might be too short is
// left as it is.
pub fn answer(book: &[u8], text: &mut [u8]) -> usize
    ensures { Puts
        (lines_of book.now (length text.old))
        text.old
        0
        result
        text.new }
{
    if text.len() < TEXT {
        return 0;
    }
    let mut lines = Text::new(text);
    answer_any(book, &mut lines);
    lines.end
}
