// Admitting one rewriting to the union in a working array that is lent.
ghost use Rattle.std.specs.Prelude.{◌≤◌};
ghost use Rattle.covering.specs.Record.{stored, question_of, SoundRecord};
ghost use Rattle.exploration.specs.Run.{limits_for};
ghost use Rattle.admit.specs.WorkingArray.{Working, FateIs};
ghost use Rattle.admit.specs.Sets.{Beside};

use super::removing::remove_covered;
use super::searching::member_covering;
use super::working::append;
use super::{Extent, Fate, ROOM};
use cover::VARIABLES;
use covering::RECORD;
use reading::Reason;

// "More than 8 atoms".
const ATOMS: u8 = 8;

// Drops the rewriting if a member covers it, and leaves every byte; else refuses it as too long where it has more than
// `answers` answer records and 8 atoms, removes what it covers, refuses where there is no room, or appends it, and its
// set of relations beside it. The array is in order afterwards, refused or not.
pub fn admit(
    work: &mut [u8],
    sets: &mut [u64; ROOM],
    filled: &mut Extent,
    rewriting: &[u8; RECORD],
    answers: u8,
) -> Result<Fate, Reason>
    requires { Working work.old filled.old
        × SoundRecord stored rewriting.now
        × (answers ≤ 1)
        × Beside sets.old work.old filled.old.count }
    ensures fate { FateIs
        (limits_for answers)
        work.old
        filled.old
        (question_of stored rewriting.now)
        work.new
        filled.new
        result }
    ensures stands { Working work.new filled.new × Beside sets.new work.new filled.new.count }
{
    let there = records::relations(rewriting);
    let mut map = [255u8; VARIABLES];
    let before = *filled;
    let covering = member_covering(work, &sets[..before.count], rewriting, there, &mut map);
    if covering.is_some() {
        return Ok(Fate::Dropped);
    }
    if ATOMS + answers < rewriting[0] {
        return Err(Reason::TooLong);
    }
    *filled = remove_covered(work, sets, before, rewriting, there);
    if ROOM <= filled.count {
        return Err(Reason::NoRoom);
    }
    filled.len = append(work, filled.len, rewriting);
    sets[filled.count] = there;
    filled.count += 1;
    Ok(Fate::Appended)
}
