// Atoms copied from one width to another, the terms as they are, the rest of the places 255; and a record copied to the
// bytes in which the code holds one.
ghost use Rattle.std.specs.Prelude.{◌≡◌, ◌+◌, ◌*◌, ◌≤◌, T, length};
ghost use Rattle.covering.specs.Lists.{◌∈◌, gather};
ghost use Rattle.covering.specs.Term.{Atom};
ghost use Rattle.covering.specs.Asking.{joined};
ghost use Rattle.covering.specs.Record.{desk, holding, stored, atom_at, atoms_at, is_atom, atom_bytes, asking_of, is_desk_record};
ghost use Rattle.covering.specs.Record.{question_of, SoundRecord};
ghost use Rattle.covering.specs.Buffer.{AtomsIn, held_in, record_room, place_or};
ghost use Rattle.covering.specs.Put.{Puts};

use crate::PLACES;
use crate::record::{answers, width};
use covering::RECORD;

// What stands in place j of the w from i on, 255 where there are not so many.
fn place_or_none(from: &[u8], i: usize, w: usize, j: usize) -> u8
    requires { i + w ≤ length from.now }
    ensures { result ≡ place_or from.now i w j }
{
    if j < w {
        return from[i + j];
    }
    255
}

// Copies the atom of from at i, which has w places, to `at`, where it gets v, and answers where it ends. The relation's
// byte goes as a place does. They are few bytes: to copy and to fill parts of the buffer takes longer.
fn copy_atom(from: &[u8], i: usize, w: usize, to: &mut [u8], at: usize, v: usize) -> usize
    requires { T (is_atom (holding w) from.now i)
        × (i + 1 + w ≤ length from.now)
        × (length (atom_at (holding w) from.now i).args ≤ v)
        × (at + 1 + v ≤ length to.old) }
    ensures { Puts
        (atom_bytes (holding v) (atom_at (holding w) from.now i))
        to.old
        at
        result
        to.new }
{
    for j in 0..1 + v {
        to[at + j] = place_or_none(from, i, 1 + w, j);
    }
    at + 1 + v
}

// Copies n atoms of from, the first at i, with w places each, to `at`, with v each, and answers where they end. No atom
// uses more than v places.
pub fn copy_atoms(
    from: &[u8],
    i: usize,
    n: usize,
    w: usize,
    to: &mut [u8],
    at: usize,
    v: usize,
) -> usize
    requires { AtomsIn (holding w) from.now i n
        × ((a : Atom) → a ∈ atoms_at (holding w) from.now i n → length a.args ≤ v)
        × (at + n * (1 + v) ≤ length to.old) }
    ensures { Puts
        (gather (atom_bytes (holding v)) (atoms_at (holding w) from.now i n))
        to.old
        at
        result
        to.new }
{
    let mut end = at;
    for k in 0..n {
        end = copy_atom(from, i + k * (1 + w), w, to, end, v);
    }
    end
}

// A record of either width as it is held inside: its answer record counted, six places an atom, the rest 255.
pub fn widened(s: &[u8], w: usize) -> [u8; RECORD]
    requires { T (is_desk_record w s.now) }
    ensures { result ≡ held_in stored record_room (joined (asking_of (desk w) s.now)) }
{
    let n = answers(s) + s[0];
    let mut held = [255u8; RECORD];
    held[0] = n;
    copy_atoms(s, 1, usize::from(n), w, &mut held, 1, PLACES);
    held
}

// The record at the front of 85 bytes, the rest 255.
pub fn copy_record(member: &[u8]) -> [u8; RECORD]
    requires { SoundRecord stored member.now }
    ensures { result ≡ held_in stored record_room (question_of stored member.now) }
{
    let width = width(member[0]);
    let mut copy = [255u8; RECORD];
    copy[..width].copy_from_slice(&member[..width]);
    copy
}
