// Each way a record can be malformed: 2 for the first, 3 for the second, and 2 for both.
use crate::show;
use std::io;
use std::io::Write;

// Counts out of range, and lengths that do not fit them.
pub fn counts<W: Write>(out: &mut W) -> io::Result<()> {
    let sound = [1u8, 0, 0, 255, 255, 255];
    show(out, b"no bytes", b"", &sound)?;
    show(out, b"count 0", b"\x00", &sound)?;
    let twelve = [12u8; 61];
    show(out, b"count 12", &sound, &twelve)?;
    show(out, b"both malformed", &twelve, b"")
}

pub fn lengths<W: Write>(out: &mut W) -> io::Result<()> {
    let sound = [1u8, 0, 0, 255, 255, 255];
    let short = [1u8, 0, 0, 255, 255];
    show(out, b"a byte short", &short, &sound)?;
    let long = [1u8, 0, 0, 255, 255, 255, 255];
    show(out, b"a byte long", &sound, &long)
}

// Bytes that an atom may not have.
pub fn places<W: Write>(out: &mut W) -> io::Result<()> {
    let sound = [1u8, 63, 63, 254, 255, 255];
    show(out, b"the largest numbers", &sound, &sound)?;
    let relation = [1u8, 64, 0, 255, 255, 255];
    show(out, b"relation 64", &relation, &sound)?;
    let variable = [1u8, 0, 0, 64, 255, 255];
    show(out, b"place 64", &sound, &variable)?;
    let between = [1u8, 0, 0, 127, 255, 255];
    show(out, b"place 127", &between, &sound)?;
    let none = [1u8, 0, 255, 255, 255, 255];
    show(out, b"no place used", &sound, &none)?;
    let gap = [1u8, 0, 0, 255, 1, 255];
    show(out, b"a gap", &gap, &sound)
}
