// The run: one book in, the whole union or a numbered refusal out.
ghost use Rattle.std.specs.Prelude.{◌≡◌, ◌≤◌, length};
ghost use Rattle.covering.specs.Form.{form};
ghost use Rattle.covering.specs.Record.{stored};
ghost use Rattle.covering.specs.Buffer.{held_in, record_room};
ghost use Rattle.covering.specs.Asking.{joined};
ghost use Rattle.reading.specs.Header.{form_of, new};
ghost use Rattle.reading.specs.Book.{book_of};
ghost use Rattle.reading.specs.Told.{number_told, place_told};
ghost use Rattle.reading.specs.Verdict.{SoundBook};
ghost use Rattle.exploration.specs.Run.{start};
ghost use Rattle.exploration.specs.Union.{output_size};
ghost use Rattle.exploration.specs.Answer.{outcome_of, Answers};
ghost use Rattle.exploration.specs.Refusals.{answers_of};
ghost use Rattle.explore.specs.Exploring.{RanIs};

use super::exploring::explore;
use super::rules::Rules;
use super::taking_up::oldest;
use admit::{Members, OUTPUT};
use covering::RECORD;
use forming::held_form;
use forms::{BOOK, to_new};
use reading::{Reason, Refused};
use records::Record;
use writing::put_union;

// The form of the book's question.
fn first_member(book: &[u8]) -> [u8; RECORD]
    requires { SoundBook book.now × (form_of book.now ≡ new) }
    ensures { result ≡ held_in stored record_room (form (joined (book_of book.now).question)) }
{
    let question = book::question(book);
    let first = held_form(&Record { bytes: &question });
    first.bytes
}

// How many answer records the book's question has, and so each member.
pub fn answer_records(book: &[u8]) -> u8
    requires { SoundBook book.now }
    ensures { result ≡ answers_of book.now }
{
    book::answers(book::read(book)) as u8
}

// Takes up the oldest unexplored member and explores it, until none is unexplored or the run is refused; answers how many
// were explored. Inside, atoms have six places: the book is in the new form.
fn explore_all(book: &[u8], members: &mut Members) -> Result<usize, Refused>
    requires { SoundBook book.now
        × (form_of book.now ≡ new)
        × (members.old ≡ start (joined (book_of book.now).question)) }
    ensures { RanIs (outcome_of book.now) members.new result }
{
    let allowed = book::read(book).allowed;
    let rules = Rules::read(book);
    let mut taken = 0;
    // The members grow and shrink in each turn: no iterator goes over them.
    while members.explored() < members.count() {
        if taken == allowed {
            return Err(Refused {
                reason: Reason::NoneLeft,
                place: taken,
            });
        }
        let member = oldest(members);
        taken += 1;
        members.take_up();
        let explored = explore(&rules, &member, members);
        if let Err(reason) = explored {
            return Err(Refused {
                reason,
                place: taken,
            });
        }
    }
    Ok(taken)
}

// Builds a sound book's union in an array of its own, from the book as it is in the new form, and writes it with
// as many places an atom as the book has. The output is written on completion alone; its length is the answer.
fn run_sound(book: &[u8], wide: &[u8], out: &mut [u8]) -> Result<usize, Refused>
    requires { SoundBook book.now
        × SoundBook wide.now
        × (form_of wide.now ≡ new)
        × (book_of wide.now ≡ book_of book.now)
        × (output_size ≤ length out.old) }
    ensures { Answers
        book.now
        out.old
        (number_told result)
        (place_told result)
        out.new }
{
    let mut members = Members::of(&first_member(wide));
    let explored = explore_all(wide, &mut members)?;
    let places = book::read(book).places;
    let answers = answer_records(book);
    let end = put_union(
        members.bytes(),
        members.count(),
        explored,
        answers,
        out,
        places,
    );
    Ok(end)
}

// The union of a book's question and its length, or why there is none: 1 to 7 and 11 of the output and of the book's
// bytes, 8 to 10 as the exploration meets them.
pub fn run(book: &[u8], out: &mut [u8]) -> Result<usize, Refused>
    ensures { Answers
        book.now
        out.old
        (number_told result)
        (place_told result)
        out.new }
{
    if out.len() < OUTPUT {
        return Err(Refused {
            reason: Reason::ShortOutput,
            place: 0,
        });
    }
    let mut wide = [0u8; BOOK];
    let len = to_new(book, &mut wide)?;
    run_sound(book, &wide[..len], out)
}
