// Taking up the oldest unexplored member, and taking its next rewriting.
ghost use Rattle.std.specs.Prelude.{◌≡◌, ◌<◌, drop, IfSome, length};
ghost use Rattle.covering.specs.Record.{stored, question_of, SoundRecord};
ghost use Rattle.reading.specs.Book.{book_of};
ghost use Rattle.lister.specs.Listing.{QuestionIn};
ghost use Rattle.lister.specs.Counts.{most_choices};
ghost use Rattle.explore.specs.Exploring.{OldestIs};
ghost use Rattle.explore.specs.Taking.{next_among, TakenIs};

use super::Taken;
use super::related::next_by;
use super::rules::Rules;
use admit::{FIRST, Members};
use covering::RECORD;

// The oldest unexplored member.
pub fn oldest(members: &Members) -> [u8; RECORD]
    requires { members.now.explored < length members.now.members }
    ensures { OldestIs members.now result }
{
    let work = members.bytes();
    let mut at = FIRST;
    for _ in 0..members.explored() {
        at += records::width(work[at]);
    }
    records::copy_record(&work[at..])
}

// The first rewriting of the member from choice `from` of the k-th rule on: "rules in book order, choices in theirs". It
// goes to the room lent, which stays as it came if there is none.
pub fn next_rewriting(
    rules: &Rules<'_>,
    member: &[u8; RECORD],
    k: usize,
    from: usize,
    out: &mut [u8; RECORD],
) -> Option<Taken>
    requires { QuestionIn member.now × SoundRecord stored member.now }
    ensures { TakenIs
        (next_among
        (question_of stored member.now)
        k
        from
        (drop k (book_of rules.now).rules))
        out.old
        result
        out.new
        × IfSome result (λ taken. taken.choice < most_choices) }
{
    let all = records::relations(member);
    let mut first = from;
    for rule in k..rules.count {
        let found = next_by(
            rules.book,
            rules.starts[rule],
            rules.heads[rule],
            member,
            all,
            first,
            out,
        );
        if let Some(choice) = found {
            return Some(Taken { rule, choice });
        }
        first = 0;
    }
    None
}
