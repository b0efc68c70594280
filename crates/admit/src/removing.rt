// Removing every member that a rewriting covers.
ghost use Rattle.std.specs.Prelude.{◌≡◌, ◌≤◌, length};
ghost use Rattle.covering.specs.Record.{stored, question_of, SoundRecord};
ghost use Rattle.covering.specs.Search.{covers};
ghost use Rattle.records.specs.Relations.{relations_of};
ghost use Rattle.admit.specs.WorkingArray.{Working, rest, Remain, state_in};
ghost use Rattle.admit.specs.Sets.{SetsFrom, Beside};
ghost use Rattle.exploration.specs.Held.{held_from, Standing};

use super::sets::renew;
use super::working::move_down;
use super::{Extent, FIRST, Moved, ROOM};
use covering::RECORD;

// Whether the rewriting, whose relations are `there`, covers the member, whose relations are the set.
fn covers_member(rewriting: &[u8; RECORD], there: u64, set: u64, member: &[u8]) -> bool
    requires { SoundRecord stored rewriting.now
        × SoundRecord stored member.now
        × (there ≡ relations_of (question_of stored rewriting.now))
        × (set ≡ relations_of (question_of stored member.now)) }
    ensures { result
        ≡ covers (question_of stored rewriting.now) (question_of stored member.now) }
{
    if !records::is_part(there, set) {
        return false;
    }
    cover::covers_sound(rewriting, member)
}

// Keeps those of the members from `from` on, as many as the sets, that the rewriting does not cover, one after the
// other from `to` on. Each is moved down at most once, however many are removed.
fn keep_uncovered(
    work: &mut [u8],
    sets: &[u64],
    from: usize,
    to: usize,
    rewriting: &[u8; RECORD],
    there: u64,
) -> Moved
    requires { (to ≤ from)
        × (length sets.now ≤ 64)
        × Standing work.old from (length sets.now)
        × SoundRecord stored rewriting.now
        × SetsFrom sets.now 0 (held_from work.old from (length sets.now))
        × (there ≡ relations_of (question_of stored rewriting.now)) }
    ensures { Remain
        work.old from to (length sets.now)
        (question_of stored rewriting.now)
        work.new result }
{
    let mut at = from;
    let mut end = to;
    let mut kept = 0;
    for set in sets {
        let width = records::width(work[at]);
        if !covers_member(rewriting, there, *set, &work[at..]) {
            move_down(work, at, end, width);
            end += width;
            kept += 1;
        }
        at += width;
    }
    Moved {
        from: at,
        to: end,
        kept,
    }
}

// Removes every member that the rewriting covers; the explored ones that stay are in front again.
pub fn remove_covered(
    work: &mut [u8],
    sets: &mut [u64; ROOM],
    filled: Extent,
    rewriting: &[u8; RECORD],
    there: u64,
) -> Extent
    requires { Working work.old filled
        × SoundRecord stored rewriting.now
        × Beside sets.old work.old filled.count
        × (there ≡ relations_of (question_of stored rewriting.now)) }
    ensures { Working work.new result
        × (state_in work.new result
        ≡ rest (state_in work.old filled) (question_of stored rewriting.now))
        × Beside sets.new work.new result.count }
{
    let front = filled.front;
    let explored = keep_uncovered(work, &sets[..front], FIRST, FIRST, rewriting, there);
    let others = keep_uncovered(
        work,
        &sets[front..filled.count],
        explored.from,
        explored.to,
        rewriting,
        there,
    );
    let count = explored.kept + others.kept;
    renew(work, sets, filled.count, count);
    Extent {
        len: others.to,
        count,
        front: explored.kept,
    }
}
