// The search desk on a pair of records, or on many in one start: for each pair it reads a byte, how many places an atom
// of them has, and two records, each a length of four bytes, the low one first, and the record's bytes. It writes a
// line such as `covers 1 keep first` (or `second`, or `none`); then of the record that is kept, for each variable where
// it goes, `v0 to c1`, and for each atom which atom of the other it meets, `r0(v0) meets r0(c1)`; then a line with a
// single full stop. It ends at a pair that is not all there, or at a record that is longer than the buffer.
#![tactic(auto)]

mod meeting;

ghost use Rattle.std.specs.Prelude.{◌≡◌, ◌≤◌, length, IfOk, IfSome};

use crate::meeting::tell_map;
use cover::Which;
use input::{fill, size};
use std::io;
use std::io::{Read, Write};

// The most bytes of a record that are read.
const RECORD: usize = 4096;

// Reads a record to the front of the buffer, and answers its length; none at the end of the input.
fn read_record<R: Read>(reader: &mut R, buffer: &mut [u8]) -> io::Result<Option<usize>>
    ensures within { IfOk result (λ got. IfSome got (λ n. n ≤ length buffer.new)) }
    ensures len { length buffer.new ≡ length buffer.old }
{
    let mut head = [0u8; 4];
    if fill(reader, &mut head)? < 4 {
        return Ok(None);
    }
    let n = size(&head);
    if buffer.len() < n {
        return Ok(None);
    }
    if fill(reader, &mut buffer[..n])? < n {
        return Ok(None);
    }
    Ok(Some(n))
}

// Writes which record is kept: the first wherever the bytes are its own, since of two that are the same it is the one.
fn tell_kept<'a, W: Write>(
    out: &mut W,
    first: &'a [u8],
    second: &'a [u8],
    w: usize,
) -> io::Result<()> {
    let kept = cover::keep(first, second, w);
    if kept.is_empty() {
        return out.write_all(b"none");
    }
    if kept == first {
        return out.write_all(b"first");
    }
    out.write_all(b"second")
}

// Writes by which map the record that is kept covers the other.
fn tell_why<W: Write>(out: &mut W, first: &[u8], second: &[u8], w: usize) -> io::Result<()> {
    let Some(kept) = cover::kept(first, second, w) else {
        return Ok(());
    };
    match kept.which {
        Which::First => tell_map(out, first, second, w, &kept.map),
        Which::Second => tell_map(out, second, first, w, &kept.map),
    }
}

// Answers a pair.
fn answer<'a, W: Write>(
    out: &mut W,
    first: &'a [u8],
    second: &'a [u8],
    w: usize,
) -> io::Result<()> {
    let number = cover::number(&cover::covers(first, second, w));
    write!(out, "covers {number} keep ")?;
    tell_kept(out, first, second, w)?;
    out.write_all(b"\n")?;
    tell_why(out, first, second, w)?;
    out.write_all(b".\n")
}

// Answers the next pair, and whether there was one. Its answer is on its way before the next pair is waited for.
fn answer_next<R: Read, W: Write>(reader: &mut R, out: &mut W) -> io::Result<bool> {
    let mut places = [0u8; 1];
    if fill(reader, &mut places)? < 1 {
        return Ok(false);
    }
    let mut first = [0u8; RECORD];
    let Some(n) = read_record(reader, &mut first)? else {
        return Ok(false);
    };
    let mut second = [0u8; RECORD];
    let Some(m) = read_record(reader, &mut second)? else {
        return Ok(false);
    };
    answer(out, &first[..n], &second[..m], usize::from(places[0]))?;
    out.flush()?;
    Ok(true)
}

// A proved loop has to end, and nothing says that the input does: the turns are counted, up to a number that no run
// comes to.
fn main(rt: HostRuntime) -> io::Result<()> {
    let mut reader = rt.stdin();
    let mut out = rt.stdout();
    for _ in 0..u64::MAX {
        if !answer_next(&mut reader, &mut out)? {
            break;
        }
    }
    Ok(())
}
