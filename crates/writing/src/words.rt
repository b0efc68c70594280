// Words put into a buffer.
ghost use Rattle.std.specs.Prelude.{◌+◌, ◌<◌, ◌≤◌, length};
ghost use Rattle.covering.specs.Put.{Puts};
ghost use Rattle.reading.specs.Word.{word_bytes};

// Puts the number n at `at` as a 16-bit word, its low byte first, and answers where it ends.
pub fn put_word(out: &mut [u8], at: usize, n: usize) -> usize
    requires { (n < 65536) × (at + 2 ≤ length out.old) }
    ensures { Puts (word_bytes n) out.old at result out.new }
{
    out[at..at + 2].copy_from_slice(&(n as u16).to_le_bytes());
    at + 2
}
