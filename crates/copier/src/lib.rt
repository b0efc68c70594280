// Copying the book that a reader gives into the new form or the old one: what the programs `to_new` and `to_old` do.
#![tactic(auto)]

ghost use Rattle.std.specs.Prelude.{◌≡◌, ◌≤◌, List, ℕ, length, take, OnOk, IfSome};
ghost use Rattle.std.specs.Io.KnownBytes.{Appends};
ghost use Rattle.reading.specs.Told.{number_of, number_told, place_told};
ghost use Rattle.reading.specs.Copy.{Copied, copy_room, to_new, to_old};
ghost use Rattle.copier.specs.Told.{refusal, written, told};
ghost use Rattle.input.specs.Looked.{looked_at};

use forms::BOOK;
use input::{LOOKED_AT, fill};
use reading::Refused;
use std::io;
use std::io::{Read, Write};

// Writes the line of a refusal.
fn write_refusal<W: Write>(out: &mut W, refused: Refused) -> io::Result<()>
    ensures { OnOk result (Appends
        (W.contents out.old)
        (W.contents out.new)
        (refusal (number_of refused.reason) refused.place)) }
{
    let number = u8::from(refused.reason);
    let place = refused.place;
    writeln!(out, "refused {number} at {place}")
}

// Writes what became of a copy that was made in these bytes: the copy, or the line of the refusal.
fn write_copy<W: Write>(out: &mut W, copy: Result<usize, Refused>, bytes: &[u8]) -> io::Result<()>
    requires { number_told copy ≡ 0 → place_told copy ≤ length bytes.now }
    ensures { OnOk result (Appends
        (W.contents out.old)
        (W.contents out.new)
        (written (number_told copy) (place_told copy) bytes.now)) }
{
    match copy {
        Ok(len) => out.write_all(&bytes[..len]),
        Err(refused) => write_refusal(out, refused),
    }
}

// A form that books are copied to: its copies, and that what is written of one is what is told of it.
trait Form {
    ghost copies: { List ℕ → ℕ → Copied };

    fn copy(book: &[u8], out: &mut [u8]) -> Result<usize, Refused>
        ensures within { number_told result ≡ 0 → place_told result ≤ length out.new }
        ensures told { written (number_told result) (place_told result) out.new
            ≡ told (copies book.now (length out.old)) };
}

// The new form.
struct New;

impl Form for New {
    ghost copies = { to_new };

    fn copy(book: &[u8], out: &mut [u8]) -> Result<usize, Refused> {
        forms::to_new(book, out)
    }
}

// The old form.
struct Old;

impl Form for Old {
    ghost copies = { to_old };

    fn copy(book: &[u8], out: &mut [u8]) -> Result<usize, Refused> {
        forms::to_old(book, out)
    }
}

// Copies the book that the reader gives to a form, and writes the copy, or a line with the refusal: where the reader's
// bytes are known, so are those written.
fn copy_to<F: Form, R: Read, W: Write>(reader: &mut R, out: &mut W) -> io::Result<()>
    ensures { OnOk result (IfSome (R.remaining reader.old) (λ xs. Appends
        (W.contents out.old)
        (W.contents out.new)
        (told (F.copies (take looked_at xs) copy_room)))) }
{
    let mut book = [0u8; LOOKED_AT];
    let n = fill(reader, &mut book)?;
    let mut bytes = [0u8; BOOK];
    let copy = F::copy(&book[..n], &mut bytes);
    write_copy(out, copy, &bytes)
}

// Copies the book that the reader gives to the new form.
pub fn copy_to_new<R: Read, W: Write>(reader: &mut R, out: &mut W) -> io::Result<()>
    ensures { OnOk result (IfSome (R.remaining reader.old) (λ xs. Appends
        (W.contents out.old)
        (W.contents out.new)
        (told (to_new (take looked_at xs) copy_room)))) }
{
    copy_to::<New, R, W>(reader, out)
}

// The same to the old form.
pub fn copy_to_old<R: Read, W: Write>(reader: &mut R, out: &mut W) -> io::Result<()>
    ensures { OnOk result (IfSome (R.remaining reader.old) (λ xs. Appends
        (W.contents out.old)
        (W.contents out.new)
        (told (to_old (take looked_at xs) copy_room)))) }
{
    copy_to::<Old, R, W>(reader, out)
}
