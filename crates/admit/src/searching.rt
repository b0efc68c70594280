// The search for a member that covers a rewriting.
ghost use Rattle.std.specs.Prelude.{◌≡◌, length, replicate};
ghost use Rattle.covering.specs.Search.{covers, first_map};
ghost use Rattle.covering.specs.FirstMap.{map_or};
ghost use Rattle.covering.specs.Record.{stored, question_of, SoundRecord};
ghost use Rattle.records.specs.Relations.{relations_of};
ghost use Rattle.exploration.specs.Union.{first_at};
ghost use Rattle.exploration.specs.Held.{held_from};
ghost use Rattle.admit.specs.WorkingArray.{first_covering, covered_by};
ghost use Rattle.admit.specs.Sets.{SetsFrom};
ghost use Rattle.cover.specs.HeldMap.{Searched};
ghost use Rattle.exploration.specs.Held.{Standing};

use super::FIRST;
use cover::VARIABLES;
use covering::RECORD;

// The number of the first member that covers the rewriting. There are as many members as sets. One candidate for the
// member's first atom is asked at a time, so that the search ends at the first that serves, and the map that it found is
// handed up beside the number. Of a member with a relation that is not one of those `there`, the rewriting's, none is
// asked. The form is 01's: nested loops over members and atoms, left by a label, the member's number by break.
pub fn member_covering(
    work: &[u8],
    sets: &[u64],
    rewriting: &[u8; RECORD],
    there: u64,
    map: &mut [u8; VARIABLES],
) -> Option<usize>
    requires { Standing work.now first_at (length sets.now)
        × SoundRecord stored rewriting.now
        × (map.old ≡ replicate stored.variables 255)
        × SetsFrom sets.now 0 (held_from work.now first_at (length sets.now))
        × (there ≡ relations_of (question_of stored rewriting.now)) }
    ensures { (result
        ≡ first_covering covers
        (question_of stored rewriting.now)
        (held_from work.now first_at (length sets.now)))
        × (map.new
        ≡ map_or stored.variables
        (covered_by (question_of stored rewriting.now) (held_from work.now first_at (length sets.now)))) }
{
    let mut at = FIRST;
    let mut i = 0;
    'members: loop {
        if sets.len() <= i {
            break 'members None;
        }
        if records::is_part(sets[i], there) {
            let member = &work[at..];
            // A member without atoms covers whatever comes.
            if member[0] == 0 {
                break 'members Some(i);
            }
            for k in 0..usize::from(rewriting[0]) {
                if cover::covers_on(member, rewriting, map, k) {
                    break 'members Some(i);
                }
            }
        }
        at += records::width(work[at]);
        i += 1;
    }
}
