// What a search asks, which stays as it is from digit to digit, and what is asked of a prefix of a choice: whether it can
// still be valid.
ghost use Rattle.std.specs.Prelude.{◌≡◌, true, false, ◌+◌, ◌*◌, ◌-◌, ◌≤◌, ◌<◌, get_or};
ghost use Rattle.covering.specs.Record.{stored, atoms_at};
ghost use Rattle.unification.specs.Step.{move, valid};
ghost use Rattle.lister.specs.Counts.{CountsFor};
ghost use Rattle.unify.specs.Table.{tabled};
ghost use Rattle.unify.specs.InBytes.{rule_of, classes_of};
ghost use Rattle.unify.specs.Unknowns.{has_unknowns};
ghost use Rattle.lister.specs.Hopeless.{SomeStuck, Hopeless};
ghost use Rattle.lister.specs.Leaving.{left_by};
ghost use Rattle.lister.specs.Listing.{RuleIn, QuestionIn, LeftIn};

use crate::leaving::put_left;
use covering::RECORD;
use forming::Held;
use unify::{Rule, is_valid, some_stuck};

// The question, the rule, how many choices there are for each number of atoms, whether the rule has existential
// variables, and the number from which on a choice counts.
#[derive(Drop)]
pub struct Asked<'a> {
    pub question: &'a [u8; RECORD],
    pub rule: Rule<'a>,
    pub counts: [usize; 9],
    pub unknowns: bool,
    pub from: usize,
    pub ghost question_in: { QuestionIn question.now },
    pub ghost rule_in: { RuleIn rule.book.now rule.parts },
    pub ghost counts_for: { CountsFor rule.parts.heads counts },
    pub ghost told: { unknowns ≡ has_unknowns (rule_of rule.book.now rule.parts) },
}

// Whether a prefix with these left atoms and classes is valid. A rule without existential variables has only valid
// choices, so that nothing is tested.
pub fn are_valid(asked: &Asked<'_>, left: &Held, table: &[u8; 96]) -> bool
    requires { LeftIn left.now }
    ensures { result
        ≡ valid
        (tabled (classes_of table.now))
        left.now
        (move 48 (rule_of asked.now.rule.book.now asked.now.rule.parts)) }
{
    if !asked.unknowns {
        return true;
    }
    is_valid(&left.bytes, &asked.rule, table)
}

// Whether one of the n atoms after those passed can get no digit any more. With fewer than three it costs more to ask
// than to try.
fn looks_stuck(asked: &Asked<'_>, passed: usize, n: usize, table: &[u8; 96]) -> bool
    requires { passed + n ≤ get_or asked.now.question.now 0 0 }
    ensures { result ≡ true
        → SomeStuck
        (tabled (classes_of table.now))
        (move 48 (rule_of asked.now.rule.book.now asked.now.rule.parts))
        (atoms_at stored asked.now.question.now (1 + passed * 7) n) }
{
    if n < 3 {
        return false;
    }
    let question = asked.question;
    some_stuck(question, &asked.rule, table, 1 + passed * 7, n)
}

// Whether the choices with a prefix of n atoms, then one that is sent, can be valid: not, if that is not valid already, or
// if an atom after it can get no digit any more. The last of the `more` atoms is sent without a test: a whole choice is
// tested as such.
pub fn can_be_valid(asked: &Asked<'_>, n: usize, more: usize, sent: usize, table: &[u8; 96]) -> bool
    requires { (0 < more) × (n + more ≤ get_or asked.now.question.now 0 0) }
    ensures { result ≡ false
        → Hopeless
        (tabled (classes_of table.now))
        (move 48 (rule_of asked.now.rule.book.now asked.now.rule.parts))
        (left_by asked.now.question.now n sent)
        (atoms_at stored asked.now.question.now (1 + (n + 1) * 7) (more - 1)) }
{
    if more == 1 {
        return true;
    }
    if asked.unknowns {
        let mut left = Held::empty();
        put_left(&mut left, asked.question, n, sent);
        if !are_valid(asked, &left, table) {
            return false;
        }
        return !looks_stuck(asked, n + 1, more - 1, table);
    }
    true
}
