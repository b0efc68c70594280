// "A choice is built up atom by atom": the recursive builder over the question atoms left, carrying the classes so far.
// The classes are lent; a digit that changes them copies them, so that the next digit finds them as they were. Which atoms
// are sent is a bit for each. So an atom that is left costs nothing: the left ones are written once they are asked for. The
// room for the rewriting is lent too, and written once one is found.
ghost use Rattle.std.specs.Prelude.{◌≡◌, ◌+◌, ◌*◌, ◌-◌, ◌≤◌, ◌<◌, length, get_or};
ghost use Rattle.covering.specs.Record.{stored, atom_at, atoms_at, question_of};
ghost use Rattle.unification.specs.Choice.{count};
ghost use Rattle.unification.specs.Step.{move, judge, next as next_of};
ghost use Rattle.lister.specs.Build.{first, since, first_by_digit, table_builder};
ghost use Rattle.lister.specs.Counts.{most_choices};
ghost use Rattle.unify.specs.Table.{tabled};
ghost use Rattle.unify.specs.InBytes.{rule_of, classes_of};
ghost use Rattle.unify.specs.Unknowns.{has_unknowns};
ghost use Rattle.lister.specs.Leaving.{left_by, any_sent};
ghost use Rattle.lister.specs.Listing.{RuleIn, QuestionIn, ClassesFit, Builds, FoundIs};

use crate::ahead::{Asked, are_valid, can_be_valid};
use crate::leaving::put_left;
use crate::powers::choice_counts;
use crate::writing::put_rewriting;
use covering::RECORD;
use forming::Held;
use unify::{Rule, all_apart, join_atoms};

// What a whole choice of n atoms gives, if it is valid and not before the start.
fn whole_choice(
    asked: &Asked<'_>,
    n: usize,
    number: usize,
    sent: usize,
    table: &[u8; 96],
    out: &mut [u8; RECORD],
) -> Option<usize>
    requires { (n ≤ get_or asked.now.question.now 0 0)
        × (length (left_by asked.now.question.now n sent) ≤ 8)
        × ClassesFit table.now }
    ensures { FoundIs
        (since asked.now.from number
        (judge
        (left_by asked.now.question.now n sent)
        (move 48 (rule_of asked.now.rule.book.now asked.now.rule.parts))
        (tabled (classes_of table.now))))
        out.old
        result
        out.new }
{
    if number < asked.from {
        return None;
    }
    let mut left = Held::empty();
    put_left(&mut left, asked.question, n, sent);
    if !are_valid(asked, &left, table) {
        return None;
    }
    put_rewriting(&left, &asked.rule, table, out);
    Some(number)
}

// The first that the choices with this prefix give: a digit for each of the `more` question atoms after those passed, in
// order. The answer is its number.
#[cycle(build_try_digit)]
fn build(
    asked: &Asked<'_>,
    passed: usize,
    more: usize,
    number: usize,
    sent: usize,
    table: &[u8; 96],
    out: &mut [u8; RECORD],
) -> Option<usize>
    requires { Builds
        asked.now.question.now
        asked.now.rule.book.now
        asked.now.rule.parts
        passed
        more
        number
        sent
        table.now }
    ensures { FoundIs
        (first
        (table_builder 48 (rule_of asked.now.rule.book.now asked.now.rule.parts) asked.now.from)
        number
        (left_by asked.now.question.now passed sent)
        (any_sent sent)
        (atoms_at stored asked.now.question.now (1 + passed * 7) more)
        (classes_of table.now))
        out.old
        result
        out.new }
{
    if more == 0 {
        if sent == 0 {
            return None;
        }
        return whole_choice(asked, passed, number, sent, table, out);
    }
    let each = asked.counts[more - 1];
    for d in 0..asked.rule.parts.heads + 1 {
        let told = try_digit(asked, passed, more, number, sent, table, d, each, out);
        if told.is_some() {
            return told;
        }
    }
    None
}

// The same with the digit d for the next atom: 0 leaves it, 1 to h sends it to that head atom. There are `each` choices
// with that digit, a count that is looked up once for all digits. Where all of them come before the start, or the atom
// cannot be put on the head atom, none of them is tried; nor where the prefix is then not valid, for it stays so however
// it goes on. A head atom of another relation is passed over before anything is copied.
#[cycle(build_try_digit)]
fn try_digit(
    asked: &Asked<'_>,
    passed: usize,
    more: usize,
    number: usize,
    sent: usize,
    table: &[u8; 96],
    d: usize,
    each: usize,
    out: &mut [u8; RECORD],
) -> Option<usize>
    requires builds { Builds
        asked.now.question.now
        asked.now.rule.book.now
        asked.now.rule.parts
        passed
        more
        number
        sent
        table.now }
    requires more_nonzero { (0 < more)
        × (d ≤ asked.now.rule.parts.heads)
        × (each ≡ count asked.now.rule.parts.heads (more - 1)) }
    ensures { FoundIs
        (first_by_digit
        (table_builder 48 (rule_of asked.now.rule.book.now asked.now.rule.parts) asked.now.from)
        number
        (left_by asked.now.question.now passed sent)
        (any_sent sent)
        (atom_at stored asked.now.question.now (1 + passed * 7))
        (atoms_at stored asked.now.question.now (1 + passed * 7 + 7) (more - 1))
        (classes_of table.now)
        d)
        out.old
        result
        out.new }
{
    let parts = asked.rule.parts;
    let next = number * (parts.heads + 1) + d;
    if (next + 1) * each <= asked.from {
        return None;
    }
    if d == 0 {
        return build(asked, passed + 1, more - 1, next, sent * 2, table, out);
    }
    let question = asked.question;
    let book = asked.rule.book;
    let head = parts.head;
    let i = 1 + passed * 7;
    let k = head + (d - 1) * 7;
    if question[i] != book[k] {
        return None;
    }
    let mut merged = *table;
    if !join_atoms(question, book, i, k, &mut merged) {
        return None;
    }
    if !can_be_valid(asked, passed, more, sent, &merged) {
        return None;
    }
    build(
        asked,
        passed + 1,
        more - 1,
        next,
        sent * 2 + 1,
        &merged,
        out,
    )
}

// The first valid choice at or after `from`: its number, and its rewriting in form in the room lent; or that there is
// none, and the room stays as it came. Whether the rule has existential variables is asked once for all its questions.
pub fn next(
    question: &[u8; RECORD],
    rule: &Rule<'_>,
    unknowns: bool,
    from: usize,
    out: &mut [u8; RECORD],
) -> Option<usize>
    requires { QuestionIn question.now
        × RuleIn rule.now.book.now rule.now.parts
        × (unknowns ≡ has_unknowns (rule_of rule.now.book.now rule.now.parts)) }
    ensures { FoundIs
        (next_of 48 (rule_of rule.now.book.now rule.now.parts) (question_of stored question.now) from)
        out.old
        result
        out.new }
{
    let n = usize::from(question[0]);
    let counts = choice_counts(rule.parts.heads);
    let asked = Asked {
        question,
        rule: *rule,
        counts,
        unknowns,
        from,
    };
    let table = all_apart();
    build(&asked, 0, n, 0, 0, &table, out)
}
