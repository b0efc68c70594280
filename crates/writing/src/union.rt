// A union put into an output: its members, each with its atoms in as many places as the book's have, then the header,
// which tells where they end.
ghost use Rattle.std.specs.Prelude.{◌++◌, ◌+◌, ◌≤◌, ◌<◌, length, drop, get_or};
ghost use Rattle.covering.specs.Lists.{◌∈◌};
ghost use Rattle.covering.specs.Term.{Atom, Question};
ghost use Rattle.covering.specs.Record.{stored, new_places, question_of, SoundRecord, width as width_of};
ghost use Rattle.covering.specs.Put.{Puts};
ghost use Rattle.exploration.specs.Union.{first_at};
ghost use Rattle.exploration.specs.Held.{held_total, held_from, Standing};
ghost use Rattle.writing.specs.Uncounted.{uncounted_record, uncounted_bytes, four_words};

use super::words::put_word;
use records::{PLACES, copy_atoms, width};

// "Offset of the first member (8)".
const FIRST: usize = 8;

// Puts the member that stands at i, its answer records not counted, w places an atom, and answers where it ends.
fn put_member(work: &[u8], i: usize, answers: u8, out: &mut [u8], at: usize, w: usize) -> usize
    requires { (i ≤ length work.now)
        × SoundRecord stored (drop i work.now)
        × (answers ≤ get_or work.now i 0)
        × ((a : Atom) → a ∈ question_of stored (drop i work.now) → length a.args ≤ w)
        × (w ≤ new_places)
        × (at + width_of stored (get_or work.now i 0) ≤ length out.old) }
    ensures { Puts
        (uncounted_record w answers (question_of stored (drop i work.now)))
        out.old
        at
        result
        out.new }
{
    let count = work[i];
    out[at] = count - answers;
    copy_atoms(work, i + 1, usize::from(count), PLACES, out, at + 1, w)
}

// Puts the n members that stand from the first on, and answers where they end.
fn put_members(work: &[u8], n: usize, answers: u8, out: &mut [u8], w: usize) -> usize
    requires { Standing work.now first_at n
        × ((M : Question) → M ∈ held_from work.now first_at n → answers ≤ length M)
        × ((M : Question) → M ∈ held_from work.now first_at n → (a : Atom) → a ∈ M → length a.args ≤ w)
        × (w ≤ new_places)
        × (first_at ≤ length work.now)
        × (length work.now ≤ length out.old) }
    ensures { Puts
        (uncounted_bytes w answers (held_from work.now first_at n))
        out.old
        first_at
        result
        out.new
        × (result ≤ length work.now) }
{
    let mut from = FIRST;
    let mut at = FIRST;
    for _member in 0..n {
        at = put_member(work, from, answers, out, at, w);
        from += width(work[from]);
    }
    at
}

// Puts the header: members, questions explored, offset of the first member, total length.
fn put_header(out: &mut [u8], count: usize, explored: usize, len: usize)
    requires { (count < 65536) × (explored < 65536) × (len < 65536) × (first_at ≤ length out.old) }
    ensures { Puts (four_words count explored len) out.old 0 first_at out.new }
{
    let a = put_word(out, 0, count);
    let b = put_word(out, a, explored);
    let c = put_word(out, b, FIRST);
    put_word(out, c, len);
}

// Puts the union of the n members that stand in the working array, and answers where it ends; the output's other bytes
// stay.
pub fn put_union(
    work: &[u8],
    n: usize,
    explored: usize,
    answers: u8,
    out: &mut [u8],
    w: usize,
) -> usize
    requires { Standing work.now first_at n
        × ((M : Question) → M ∈ held_from work.now first_at n → answers ≤ length M)
        × ((M : Question) → M ∈ held_from work.now first_at n → (a : Atom) → a ∈ M → length a.args ≤ w)
        × (w ≤ new_places)
        × (first_at ≤ length work.now)
        × (length work.now ≤ length out.old)
        × (length work.now < 65536)
        × (n < 65536)
        × (explored < 65536) }
    ensures { Puts
        (four_words n explored result ++ uncounted_bytes w answers (held_from work.now first_at n))
        out.old
        0
        result
        out.new }
{
    let end = put_members(work, n, answers, out, w);
    put_header(out, n, explored, end);
    end
}
