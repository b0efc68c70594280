// Which rules can have a rewriting: those with a head relation that stands in the member. The sets of their head relations
// are made once, and then a rule without one is passed over by a look at two words. So is it asked once of each rule
// whether it has existential variables.
ghost use Rattle.std.specs.Prelude.{◌≡◌, ◌+◌, ◌≤◌, ◌<◌, length, IfSome};
ghost use Rattle.covering.specs.Record.{stored, question_of};
ghost use Rattle.records.specs.Relations.{relations_of};
ghost use Rattle.reading.specs.Header.{rules as rules_of, form_of, new};
ghost use Rattle.reading.specs.Book.{rule_at};
ghost use Rattle.reading.specs.Verdict.{SoundBook};
ghost use Rattle.book.specs.Parts.{StartsAt, parts_at};
ghost use Rattle.lister.specs.Listing.{RuleIn, QuestionIn, FoundIs};
ghost use Rattle.lister.specs.Counts.{most_choices};
ghost use Rattle.unification.specs.Step.{next};
ghost use Rattle.exploration.specs.Run.{apart};
ghost use Rattle.explore.specs.Related.{HeadSets, head_told};

use super::Head;
use covering::RECORD;
use lister::Rule;

// The most rules of a book.
pub const RULES: usize = 32;

// What is known of the head of each of the book's rules.
pub fn head_sets(book: &[u8], rules: usize, starts: &[usize]) -> [Head; RULES]
    requires { SoundBook book.now
        × (rules ≡ rules_of book.now)
        × StartsAt book.now starts.now
        × (form_of book.now ≡ new) }
    ensures { HeadSets book.now result }
{
    let mut heads = [Head {
        relations: 0,
        unknowns: false,
    }; RULES];
    for k in 0..rules {
        let parts = book::rule_at(book, starts[k]);
        let relations = records::relations_at(book, parts.head, parts.heads);
        let unknowns = lister::has_unknowns(&Rule { book, parts });
        heads[k] = Head {
            relations,
            unknowns,
        };
    }
    heads
}

// The member's next rewriting by the rule at `start`, from choice `from` on. Where no relation of the rule's head is one
// of the member's, there is none, and no choice is tried.
pub fn next_by(
    book: &[u8],
    start: usize,
    head: Head,
    member: &[u8; RECORD],
    all: u64,
    from: usize,
    out: &mut [u8; RECORD],
) -> Option<usize>
    requires { (start + 2 ≤ length book.now)
        × (form_of book.now ≡ new)
        × RuleIn book.now (parts_at book.now start)
        × QuestionIn member.now
        × (head ≡ head_told (rule_at book.now start))
        × (all ≡ relations_of (question_of stored member.now)) }
    ensures { FoundIs
        (next apart (rule_at book.now start) (question_of stored member.now) from)
        out.old
        result
        out.new
        × IfSome result (λ choice. choice < most_choices) }
{
    if head.relations & all == 0 {
        return None;
    }
    let parts = book::rule_at(book, start);
    lister::next(member, &Rule { book, parts }, head.unknowns, from, out)
}
