// What the programs read from their input: bytes into a slice, and lengths of four bytes.
#![tactic(auto)]

ghost use Rattle.std.specs.Prelude.{◌≡◌, ◌<◌, ◌^◌, length, take, IfOk};
ghost use Rattle.std.specs.Io.{ReadsAtMost};
ghost use Rattle.input.specs.Filled.{Fills};
ghost use Rattle.input.specs.Number.{low_first};

use std::io;
use std::io::Read;

// The most bytes of a book that a program looks at: `looked_at` in the contracts.
pub const LOOKED_AT: usize = 65536;

// Reads until the slice is full or the input ends, and answers how many bytes it put at the slice's start: the front of
// what the reader has, as much as fits. A read that fails ends it with its error. A loop of its own: `read_exact` does not
// say how much it read where the input ends, and `read_to_end` asks for a heap, which this project has not.
pub fn fill<R: Read>(reader: &mut R, into: &mut [u8]) -> io::Result<usize>
    ensures bound { ReadsAtMost result into.new }
    ensures len { length into.new ≡ length into.old }
    ensures bytes { IfOk result (λ n. Fills
        (length into.new)
        (R.remaining reader.old)
        (R.remaining reader.new)
        (take n into.new)) }
{
    let mut done: usize = 0;
    while done < into.len() {
        let n = reader.read(&mut into[done..])?;
        if n == 0 {
            return Ok(done);
        }
        done += n;
    }
    Ok(done)
}

// The number in four bytes, the low one first.
pub fn size(s: &[u8; 4]) -> usize
    ensures value { result ≡ low_first s.now }
    ensures small { result < 2 ^ 32 }
{
    u32::from_le_bytes(*s) as usize
}
