// The printing program for many books in one start: for each book it reads a length of four bytes, the low one first,
// and the book's bytes, and writes what is printed for the book and a line with a single full stop. A book that is not
// all there is left out.
#![tactic(auto)]

ghost use Rattle.std.specs.Prelude.{◌≡◌, ◌<◌, ◌≤◌, ◌^◌, List, ℕ, length, IfOk, OnOk, IfSome};
ghost use Rattle.std.specs.Io.KnownBytes.{Appends};
ghost use Rattle.rauntiko_batch.specs.Batch.{Skips, ReadsFirst, AnswersFirst, Answered};
ghost use Rattle.input.specs.Looked.{looked_at};

use input::{LOOKED_AT, fill, size};
use std::io;
use std::io::{Read, Write};

// Reads so many bytes for nothing, and answers whether they were there. A loop of its own: `io::copy` from a `take` to a
// `sink` does not say what the reader has left.
fn skip<R: Read>(reader: &mut R, n: usize) -> io::Result<bool>
    ensures { IfOk result (λ there. Skips
        n
        (R.remaining reader.old)
        (R.remaining reader.new)
        there) }
{
    let mut left = n;
    while 0 < left {
        let step = left.min(4096);
        let mut bytes = [0u8; 4096];
        let got = fill(reader, &mut bytes[..step])?;
        if got < step {
            return Ok(false);
        }
        left -= step;
    }
    Ok(true)
}

// Reads the next book, as much of it as is looked at, to the front of the buffer, skips the rest of it, and answers how
// much is looked at; none where the book is not all there.
fn read_book<R: Read>(reader: &mut R, book: &mut [u8; LOOKED_AT]) -> io::Result<Option<usize>>
    ensures bound { IfOk result (λ read. IfSome read (λ n. n ≤ looked_at)) }
    ensures bytes { IfOk result (λ read. ReadsFirst
        (R.remaining reader.old)
        (R.remaining reader.new)
        book.new
        read) }
{
    let mut head = [0u8; 4];
    let told = fill(reader, &mut head)?;
    if told < 4 {
        return Ok(None);
    }
    let length = size(&head);
    let kept = length.min(LOOKED_AT);
    let got = fill(reader, &mut book[..kept])?;
    if got < kept {
        return Ok(None);
    }
    let skipped = skip(reader, length - kept)?;
    if !skipped {
        return Ok(None);
    }
    Ok(Some(kept))
}

// Answers the next book, and whether there was one. Its answer is on its way before the next book is waited for.
fn answer_next<R: Read, W: Write>(reader: &mut R, out: &mut W) -> io::Result<bool>
    ensures { IfOk result (λ there. AnswersFirst
        (R.remaining reader.old)
        (R.remaining reader.new)
        (W.contents out.old)
        (W.contents out.new)
        there) }
{
    let mut book = [0u8; LOOKED_AT];
    let read = read_book(reader, &mut book)?;
    let Some(kept) = read else {
        return Ok(false);
    };
    let mut text = [0u8; printing::TEXT];
    let end = printing::answer(&book[..kept], &mut text);
    out.write_all(&text[..end])?;
    out.write_all(b".\n")?;
    out.flush()?;
    Ok(true)
}

// Answers each book that the reader gives: where its bytes are known, and there are fewer than 2 ^ 64, so are those
// written. A proved loop has to end, and nothing says that the input does: the turns are counted, up to a number that
// no run comes to.
fn answer_all<R: Read, W: Write>(reader: &mut R, out: &mut W) -> io::Result<()>
    ensures { OnOk result (IfSome (R.remaining reader.old) (λ xs. length xs < 2 ^ 64 →
        (ys : List ℕ) × Answered xs ys × Appends (W.contents out.old) (W.contents out.new) ys)) }
{
    for turn in 0..u64::MAX {
        if !answer_next(reader, out)? {
            return Ok(());
        }
    }
    Ok(())
}

fn main(rt: HostRuntime) -> io::Result<()> {
    answer_all(&mut rt.stdin(), &mut rt.stdout())
}
