// The sets of relations beside the working array, made anew.
ghost use Rattle.std.specs.Prelude.{◌≡◌, ◌≤◌, length, get_or};
ghost use Rattle.covering.specs.Record.{stored, question_of, SoundRecord};
ghost use Rattle.records.specs.Relations.{relations_of};
ghost use Rattle.exploration.specs.Union.{first_at};
ghost use Rattle.exploration.specs.Held.{held_from, Standing};
ghost use Rattle.admit.specs.Sets.{SetsFrom, Beside};

use super::{FIRST, ROOM};
use covering::RECORD;

// The sets of relations beside a working array with that member alone.
pub fn of_one(member: &[u8; RECORD]) -> [u64; ROOM]
    requires { SoundRecord stored member.now }
    ensures { (length result ≡ 64) × (get_or result 0 0 ≡ relations_of (question_of stored member.now)) }
{
    let mut sets = [0u64; ROOM];
    sets[0] = records::relations(member);
    sets
}

// Makes the sets of the count members that were left of `were`. Where none was removed they are as they were.
pub fn renew(work: &[u8], sets: &mut [u64; ROOM], were: usize, count: usize)
    requires { (count ≤ 64)
        × Standing work.now first_at count
        × (length sets.old ≡ 64)
        × (were ≤ count → SetsFrom sets.old 0 (held_from work.now first_at count)) }
    ensures { Beside sets.new work.now count }
{
    if were <= count {
        return;
    }
    let mut at = FIRST;
    for set in &mut sets[..count] {
        *set = records::relations(&work[at..]);
        at += records::width(work[at]);
    }
}
