// The search desk on the bench's examples 1 to 3, on each way a record can be malformed, and on records at the
// limits. A line has a name, whether the first record covers the second, and the bytes of the one to keep.
#![tactic(auto)]

mod limits;
mod refusals;

use std::io;
use std::io::Write;

fn main(rt: HostRuntime) -> io::Result<()> {
    let mut out = rt.stdout();
    directions(&mut out)?;
    shared(&mut out)?;
    refusals::counts(&mut out)?;
    refusals::lengths(&mut out)?;
    refusals::places(&mut out)?;
    limits::eleven_atoms(&mut out)?;
    limits::late_misfit(&mut out)?;
    out.flush()
}

// Writes a line: the answer, and the bytes that are kept.
pub fn show<'a, W: Write>(
    out: &mut W,
    name: &[u8],
    first: &'a [u8],
    second: &'a [u8],
) -> io::Result<()> {
    out.write_all(name)?;
    let answer = cover::number(&cover::covers(first, second, 4));
    write!(out, ": {answer}, keeps")?;
    numbers(out, cover::keep(first, second, 4))?;
    out.write_all(b"\n")
}

// Writes each byte as a number, a blank before it.
fn numbers<W: Write>(out: &mut W, bytes: &[u8]) -> io::Result<()> {
    for b in bytes {
        write!(out, " {b}")?;
    }
    Ok(())
}

// Examples 1 and 2, with their converses.
fn directions<W: Write>(out: &mut W) -> io::Result<()> {
    let apart = [1u8, 0, 0, 1, 255, 255];
    let alike = [1u8, 0, 0, 0, 255, 255];
    show(out, b"1 p(v0,v1), p(v0,v0)", &apart, &alike)?;
    show(out, b"1 p(v0,v0), p(v0,v1)", &alike, &apart)?;
    let unnamed = [1u8, 1, 0, 255, 255, 255];
    let named = [1u8, 1, 128, 255, 255, 255];
    show(out, b"2 p(v0), p(c0)", &unnamed, &named)?;
    show(out, b"2 p(c0), p(v0)", &named, &unnamed)
}

// Example 3, two atoms on one; and two equivalent records, of which the first is kept.
fn shared<W: Write>(out: &mut W) -> io::Result<()> {
    let there_and_back = [2u8, 0, 0, 1, 255, 255, 0, 1, 0, 255, 255];
    let at_one_place = [1u8, 0, 128, 128, 255, 255];
    show(
        out,
        b"3 p(v0,v1) p(v1,v0), p(c0,c0)",
        &there_and_back,
        &at_one_place,
    )?;
    let once = [1u8, 2, 5, 255, 255, 255];
    let twice = [2u8, 2, 1, 255, 255, 255, 2, 0, 255, 255, 255];
    show(out, b"equivalent, the first kept", &twice, &once)?;
    show(out, b"incomparable", &at_one_place, &once)?;
    let wider = [1u8, 2, 5, 6, 255, 255];
    show(out, b"another number of places", &once, &wider)
}
