// The printing program: reads a book of at most 65,536 bytes from standard input, ignores what follows, and prints its
// answer.
#![tactic(auto)]

ghost use Rattle.std.specs.Prelude.{take, OnOk, IfSome};
ghost use Rattle.std.specs.Io.KnownBytes.{Appends};
ghost use Rattle.printing.specs.Answer.{lines_of, text_size};
ghost use Rattle.input.specs.Looked.{looked_at};

use input::{LOOKED_AT, fill};
use std::io;
use std::io::{Read, Write};

// Prints the answer to the book that the reader gives: where the bytes that it has are known, so are those written.
fn print_answer<R: Read, W: Write>(reader: &mut R, out: &mut W) -> io::Result<()>
    ensures { OnOk result (IfSome (R.remaining reader.old) (λ xs. Appends
        (W.contents out.old)
        (W.contents out.new)
        (lines_of (take looked_at xs) text_size))) }
{
    let mut book = [0u8; LOOKED_AT];
    let n = fill(reader, &mut book)?;
    let mut text = [0u8; printing::TEXT];
    let end = printing::answer(&book[..n], &mut text);
    out.write_all(&text[..end])
}

fn main(rt: HostRuntime) -> io::Result<()> {
    print_answer(&mut rt.stdin(), &mut rt.stdout())
}
