// What a covering map makes of a record, in words: where its variables go and which atoms its atoms meet.
use cover::MAP;
use covering::RECORD;
use records::{is_record, widened};
use std::io::Write;
use std::{fmt, io};

// The bytes of an atom as it is held inside: its relation and its places.
const ATOM: usize = 7;

// A term's byte, printed `v` for a variable, `c` for a constant, and its number.
#[derive(Clone, Copy)]
struct Term(u8);

impl fmt::Display for Term {
    fn fmt<W: fmt::Write>(&self, f: &mut fmt::Formatter<W>) -> fmt::Result {
        let b = self.0;
        if b < 128 {
            return write!(f, "v{b}");
        }
        write!(f, "c{}", b - 128)
    }
}

// A relation's byte, printed `a` for the answer record's, else `r` and its number.
#[derive(Clone, Copy)]
struct Relation(u8);

impl fmt::Display for Relation {
    fn fmt<W: fmt::Write>(&self, f: &mut fmt::Formatter<W>) -> fmt::Result {
        let b = self.0;
        if b == 255 {
            return f.write_str("a");
        }
        write!(f, "r{b}")
    }
}

// Writes an atom as the printing program prints it: its relation, and its places before the first that is unused.
fn tell_atom<W: Write>(out: &mut W, atom: &[u8]) -> io::Result<()> {
    let [relation, places @ ..] = atom else {
        return Ok(());
    };
    write!(out, "{}", Relation(*relation))?;
    let mut before = "(";
    for b in places {
        if *b == 255 {
            break;
        }
        write!(out, "{before}{}", Term(*b))?;
        before = ",";
    }
    out.write_all(b")")
}

// Where a place goes by the map: a constant and an unused place stay.
fn image(map: &[u8; MAP], b: u8) -> u8 {
    if b < 66 {
        return map[usize::from(b)];
    }
    b
}

// Whether the map sends the one atom to the other.
fn goes(map: &[u8; MAP], one: &[u8], other: &[u8]) -> bool {
    match (one, other) {
        ([r, ts @ ..], [s, us @ ..]) => {
            r == s && ts.iter().zip(us).all(|(t, u)| image(map, *t) == *u)
        }
        _ => false,
    }
}

// A line for each variable that goes somewhere.
fn tell_variables<W: Write>(out: &mut W, map: &[u8; MAP]) -> io::Result<()> {
    for (v, u) in map.iter().enumerate() {
        if *u != 255 {
            write!(out, "{} to {}\n", Term(v as u8), Term(*u))?;
        }
    }
    Ok(())
}

// A line for each atom of the first, with the first atom of the second that it goes to.
fn tell_atoms<W: Write>(
    out: &mut W,
    first: &[u8],
    second: &[u8],
    map: &[u8; MAP],
) -> io::Result<()> {
    for atom in first.chunks_exact(ATOM) {
        tell_atom(out, atom)?;
        out.write_all(b" meets ")?;
        if let Some(met) = second
            .chunks_exact(ATOM)
            .find(|other| goes(map, atom, other))
        {
            tell_atom(out, met)?;
        }
        out.write_all(b"\n")?;
    }
    Ok(())
}

// The atoms of a record, its answer record first, as they are held inside.
fn atoms(record: &[u8; RECORD]) -> &[u8] {
    let n = usize::from(record[0].min(12));
    &record[1..1 + n * ATOM]
}

// A line for each variable, and one for each atom of first, both told as they are held inside, whatever their width.
pub fn tell_map<W: Write>(
    out: &mut W,
    first: &[u8],
    second: &[u8],
    w: usize,
    map: &[u8; MAP],
) -> io::Result<()> {
    if !is_record(first, w) || !is_record(second, w) {
        return Ok(());
    }
    let one = widened(first, w);
    let two = widened(second, w);
    tell_variables(out, map)?;
    tell_atoms(out, atoms(&one), atoms(&two), map)
}
