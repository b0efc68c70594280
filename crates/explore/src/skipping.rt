// Passing over choices. If a member covers what the first digits of a choice settle, it covers the rewriting of every
// choice that has them: all of these would be dropped, and the exploration goes on after them. Whether that is asked is
// no matter of the run, which is the same.
ghost use Rattle.std.specs.Prelude.{◌≡◌, ◌+◌, ◌≤◌, ◌<◌, length, get_or};
ghost use Rattle.covering.specs.Record.{stored, question_of};
ghost use Rattle.reading.specs.Header.{rules as rules_of};
ghost use Rattle.reading.specs.Book.{rule_at, rule_start};
ghost use Rattle.unification.specs.Choice.{count};
ghost use Rattle.lister.specs.Listing.{RuleIn, QuestionIn};
ghost use Rattle.unify.specs.InBytes.{rule_of};
ghost use Rattle.explore.specs.Skipping.{PrefixCovered, GoesOn};

use super::rules::Rules;
use super::{Patience, Resumed};
use admit::Members;
use book::rule_at;
use lister::{Rule, after_prefix, prefix_rewriting};

// So many drops by one rule go by before it is first asked, and no more than so many before it is asked again.
const FEW: usize = 8;

const MANY: usize = 65536;

// Whether one of the members covers what the first p digits of the choice settle.
fn prefix_covered(
    rule: &Rule<'_>,
    member: &[u8],
    members: &Members,
    choice: usize,
    p: usize,
) -> bool
    requires { QuestionIn member.now
        × RuleIn rule.now.book.now rule.now.parts
        × (p < get_or member.now 0 0)
        × (choice < count rule.now.parts.heads (get_or member.now 0 0)) }
    ensures { PrefixCovered
        (rule_of rule.now.book.now rule.now.parts)
        (question_of stored member.now)
        members.now.members
        choice
        p
        result }
{
    let settled = prefix_rewriting(member, rule, choice, p);
    let Some(question) = settled else {
        return false;
    };
    members.covers(&question.bytes)
}

// How many digits the shortest prefix has that is asked, for n atoms: the table of choice counts ends at eight to come.
fn shortest(n: usize) -> usize
    ensures { n ≤ result + 8 }
{
    if 8 < n {
        return n - 8;
    }
    0
}

// The number to go on from after the choice: after all that have its shortest covered prefix, or the next one. A prefix
// covers what a longer one does, so the longest is asked first, and where it is not covered nothing else is asked.
fn after_covered(rule: &Rule<'_>, member: &[u8], members: &Members, choice: usize) -> usize
    requires { QuestionIn member.now
        × RuleIn rule.now.book.now rule.now.parts
        × (choice < count rule.now.parts.heads (get_or member.now 0 0)) }
    ensures { GoesOn
        (rule_of rule.now.book.now rule.now.parts)
        (question_of stored member.now)
        members.now.members
        choice
        result }
{
    let n = usize::from(member[0]);
    let mut from = choice + 1;
    for p in (shortest(n)..n).rev() {
        if !prefix_covered(rule, member, members, choice, p) {
            return from;
        }
        from = after_prefix(member, rule.parts.heads, choice, p);
    }
    from
}

impl Patience {
    // The patience that a rule begins with.
    pub(crate) fn fresh(rule: usize) -> Self {
        Patience {
            rule,
            drops: FEW,
            next: FEW,
        }
    }

    // After asking: where it helped it is asked again at once, else after twice as many drops.
    fn asked(self, helped: bool) -> Self {
        let rule = self.rule;
        if helped {
            return Patience {
                rule,
                drops: 0,
                next: 1,
            };
        }
        let drops = self.next;
        if MANY <= drops {
            return Patience {
                rule,
                drops,
                next: drops,
            };
        }
        Patience {
            rule,
            drops,
            next: drops * 2,
        }
    }
}

// Where to go on after a rewriting of the member by that rule was dropped.
pub fn after_drop(
    rules: &Rules<'_>,
    member: &[u8],
    members: &Members,
    rule: usize,
    choice: usize,
    patience: Patience,
) -> Resumed
    requires { QuestionIn member.now
        × (rule < rules_of rules.now)
        × (choice
        < count (length (rule_at rules.now (rule_start rules.now rule)).head) (get_or member.now 0 0)) }
    ensures { GoesOn
        (rule_at rules.now (rule_start rules.now rule))
        (question_of stored member.now)
        members.now.members
        choice
        result.from }
{
    let book = rules.book;
    let mut now = patience;
    if now.rule != rule {
        now = Patience::fresh(rule);
    }
    if 0 < now.drops {
        now.drops -= 1;
        return Resumed {
            from: choice + 1,
            patience: now,
        };
    }
    let parts = rule_at(book, rules.starts[rule]);
    let from = after_covered(&Rule { book, parts }, member, members, choice);
    Resumed {
        from: from,
        patience: now.asked(choice + 1 < from),
    }
}
