// The first digits of a choice: what they settle of every choice that begins with them, and where these end.
ghost use Rattle.std.specs.Prelude.{◌≡◌, not, ◌++◌, ◌+◌, ◌*◌, ◌-◌, ◌/◌, ◌≤◌, ◌<◌, eqb, length, get_or, drop};
ghost use Rattle.covering.specs.Lists.{any};
ghost use Rattle.covering.specs.Record.{stored, question_of};
ghost use Rattle.unification.specs.Choice.{count};
ghost use Rattle.unify.specs.InBytes.{rule_of};
ghost use Rattle.lister.specs.Counts.{most_choices};
ghost use Rattle.lister.specs.Listing.{RuleIn, QuestionIn};
ghost use Rattle.lister.specs.FirstDigits.{unmet, PrefixIs, DigitFor, DigitPut};

use crate::powers::choice_count;
use crate::writing::replaced;
use forming::{Held, add_atom};
use unify::{Rule, all_apart, join_atoms};

// Gives the question atom at i its digit: leaves it, or puts it on that head atom in the classes. Whether it can be put
// there; what the classes are after a no does not count.
fn put_digit(
    question: &[u8],
    rule: &Rule<'_>,
    i: usize,
    d: usize,
    left: &mut Held,
    table: &mut [u8; 96],
) -> bool
    requires { DigitFor question.now rule.now.book.now rule.now.parts i d left.old table.old }
    ensures { DigitPut
        question.now
        rule.now.book.now
        rule.now.parts
        i
        d
        left.old
        table.old
        result
        left.new
        table.new }
{
    if d == 0 {
        add_atom(left, question, i);
        return true;
    }
    join_atoms(question, rule.book, i, rule.parts.head + (d - 1) * 7, table)
}

// Whether no atom of the rule's head has the relation.
fn is_unmet(rule: &Rule<'_>, relation: u8) -> bool
    ensures { result ≡ not (any (λ b. eqb relation b.rel) (rule_of rule.now.book.now rule.now.parts).head) }
{
    let parts = rule.parts;
    !(0..parts.heads).any(|k| relation == rule.book[parts.head + k * 7])
}

// Leaves those of the atoms after the first p that no head atom can meet: every choice that is valid leaves them.
fn leave_unmet(question: &[u8], rule: &Rule<'_>, p: usize, left: &mut Held)
    requires { QuestionIn question.now
        × RuleIn rule.now.book.now rule.now.parts
        × (length left.old ≤ p)
        × (p ≤ get_or question.now 0 0) }
    ensures { left.new
        ≡ left.old ++ unmet (rule_of rule.now.book.now rule.now.parts).head (drop p (question_of stored question.now)) }
{
    let n = usize::from(question[0]);
    for j in p..n {
        let at = 1 + j * 7;
        let unmet = is_unmet(rule, question[at]);
        if unmet {
            add_atom(left, question, at);
        }
    }
}

// What the first p digits of a choice settle: the atoms that they leave, those after them that no head atom can meet, and
// then the body, each class of the digits replaced by what stands for it. It is not in form: covering needs none.
pub fn prefix_rewriting(question: &[u8], rule: &Rule<'_>, choice: usize, p: usize) -> Option<Held>
    requires { QuestionIn question.now
        × RuleIn rule.now.book.now rule.now.parts
        × (p < get_or question.now 0 0)
        × (choice < count rule.now.parts.heads (get_or question.now 0 0)) }
    ensures { PrefixIs
        (rule_of rule.now.book.now rule.now.parts)
        (question_of stored question.now)
        choice
        p
        result }
{
    let n = usize::from(question[0]);
    let mut left = Held::empty();
    let mut table = all_apart();
    let mut rest = choice;
    for j in 0..p {
        let each = choice_count(rule.parts.heads, n - 1 - j);
        let d = rest / each;
        if !put_digit(question, rule, 1 + j * 7, d, &mut left, &mut table) {
            return None;
        }
        rest %= each;
    }
    leave_unmet(question, rule, p, &mut left);
    if 8 < left.lent().count() {
        return None;
    }
    Some(replaced(&left, rule, &table))
}

// The number of the first choice after those that have the first p digits of this one.
pub fn after_prefix(question: &[u8], heads: usize, choice: usize, p: usize) -> usize
    requires { (1 ≤ length question.now)
        × (1 ≤ heads)
        × (heads ≤ 4)
        × (p ≤ get_or question.now 0 0)
        × (get_or question.now 0 0 ≤ p + 8)
        × (choice < most_choices) }
    ensures { result
        ≡ (choice / count heads (get_or question.now 0 0 - p) + 1) * count heads (get_or question.now 0 0 - p) }
{
    let n = usize::from(question[0]);
    let each = choice_count(heads, n - p);
    (choice / each + 1) * each
}
