// The two copies.
ghost use Rattle.std.specs.Prelude.{◌≡◌, length};
ghost use Rattle.reading.specs.Told.{judged, number_told, place_told};
ghost use Rattle.reading.specs.Copy.{CopiesNew, CopiesOld};
ghost use Rattle.forms.specs.Ready.{first_refusal};

use crate::BOOK;
use crate::old_form::no_old_form;
use crate::put::put_book;
use book::check;
use judging::Form;
use reading::{Reason, Refused};

// Refused 1 where there is too little room, then as the book itself is.
fn ready(book: &[u8], room: usize) -> Result<(), Refused>
    ensures { judged result ≡ first_refusal book.now room }
{
    if room < BOOK {
        return Err(Refused {
            reason: Reason::ShortOutput,
            place: 0,
        });
    }
    check(book)
}

// The book in the new form, and its length: refused 1 where there is too little room, then as the book itself is.
pub fn to_new(book: &[u8], out: &mut [u8]) -> Result<usize, Refused>
    ensures { CopiesNew
        book.now
        out.old
        (number_told result)
        (place_told result)
        out.new }
{
    ready(book, out.len())?;
    Ok(put_book(book, out, Form::New))
}

// The book in the old form, and its length: refused 1 where there is too little room, then as the book itself is, then
// 13 where it has none.
pub fn to_old(book: &[u8], out: &mut [u8]) -> Result<usize, Refused>
    ensures { CopiesOld
        book.now
        out.old
        (number_told result)
        (place_told result)
        out.new }
{
    ready(book, out.len())?;
    no_old_form(book)?;
    Ok(put_book(book, out, Form::Old))
}
