// Exploring one member.
ghost use Rattle.covering.specs.Record.{stored, question_of};
ghost use Rattle.reading.specs.Book.{book_of};
ghost use Rattle.explore.specs.Exploring.{MemberIn, ExploredIs};
ghost use Rattle.exploration.specs.Refusals.{limits_of};

use super::Patience;
use super::rules::Rules;
use super::skipping::after_drop;
use super::taking_up::next_rewriting;
use admit::{Fate, Members};
use covering::RECORD;
use reading::Reason;

// Admits the member's rewritings, one after the other. If the member is itself removed its exploration stops at once,
// after the append. After a drop, choices whose rewritings would all be dropped are passed over.
pub fn explore(
    rules: &Rules<'_>,
    member: &[u8; RECORD],
    members: &mut Members,
) -> Result<(), Reason>
    requires { MemberIn rules.now member.now }
    ensures { ExploredIs
        (limits_of rules.now)
        (book_of rules.now).rules
        (question_of stored member.now)
        members.old
        members.new
        result }
{
    let answers = rules.answers;
    let mut rule = 0;
    let mut from = 0;
    let mut room = [255u8; RECORD];
    let mut patience = Patience::fresh(0);
    // The next rewriting is taken from a place that moves by more than one: no range goes over them.
    loop {
        let found = next_rewriting(rules, member, rule, from, &mut room);
        let Some(taken) = found else {
            return Ok(());
        };
        rule = taken.rule;
        from = taken.choice + 1;
        match members.admit(&room, answers)? {
            Fate::Dropped => {
                let resumed = after_drop(rules, member, members, rule, taken.choice, patience);
                from = resumed.from;
                patience = resumed.patience;
            }
            Fate::Appended => {
                let stops = cover::covers_sound(&room, member);
                if stops {
                    return Ok(());
                }
            }
        }
    }
}
