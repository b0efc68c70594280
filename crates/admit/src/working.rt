// The working array: the union as it will be written, its members' records one after the other. A record is put after
// the last one, and those that stay are moved down over those that are removed.
ghost use Rattle.std.specs.Prelude.{◌≡◌, ◌++◌, ◌+◌, ◌≤◌, length, get_or, take, drop};
ghost use Rattle.covering.specs.Record.{stored, width, question_of, record_bytes, SoundRecord};

// Puts the record at len, and answers where it ends.
pub fn append(work: &mut [u8], len: usize, member: &[u8]) -> usize
    requires { SoundRecord stored member.now × (len + width stored (get_or member.now 0 0) ≤ length work.old) }
    ensures { (result ≡ len + length (record_bytes stored (question_of stored member.now)))
        × (work.new
        ≡ take len work.old
        ++ (record_bytes stored (question_of stored member.now) ++ drop result work.old)) }
{
    let width = records::width(member[0]);
    work[len..len + width].copy_from_slice(&member[..width]);
    len + width
}

// Moves the width bytes at `from` down to `to`, if they do not stand there already.
pub fn move_down(work: &mut [u8], from: usize, to: usize, width: usize)
    requires { (to ≤ from) × (from + width ≤ length work.old) }
    ensures { work.new
        ≡ take to work.old
        ++ (take width (drop from work.old) ++ drop (to + width) work.old) }
{
    if to < from {
        work.copy_within(from..from + width, to);
    }
}
