// The rewriting of a choice: the left atoms, then the rule's body, each class replaced by what stands for it; and in form.
ghost use Rattle.std.specs.Prelude.{◌≡◌, ◌++◌, ◌+◌, ◌≤◌, length};
ghost use Rattle.covering.specs.Term.{on_question};
ghost use Rattle.covering.specs.Form.{form};
ghost use Rattle.covering.specs.Record.{stored, atoms_at};
ghost use Rattle.covering.specs.Buffer.{held_in, AtomsIn, record_room};
ghost use Rattle.forming.specs.Building.{sub_of};
ghost use Rattle.unification.specs.Step.{move, rewriting as rewriting_of};
ghost use Rattle.unify.specs.Table.{tabled};
ghost use Rattle.unify.specs.InBytes.{in_book, rule_of, classes_of};
ghost use Rattle.lister.specs.Listing.{RuleIn, LeftIn, ClassesFit, UpperHalf};

use covering::RECORD;
use forming::{Held, add_on, in_form};
use unify::Rule;

// What stands for the rule's variables: the upper half of the classes, moved down by 48.
fn upper_half(table: &[u8; 96]) -> [u8; 96]
    ensures { UpperHalf table.now result }
{
    let mut upper = *table;
    upper[..48].copy_from_slice(&table[48..]);
    upper
}

// Puts the n atoms of from that start at i after the record's own, each variable replaced by what the table has.
fn put_all(kept: &mut Held, table: &[u8; 96], from: &[u8], i: usize, n: usize)
    requires { (length kept.old + n ≤ 12)
        × AtomsIn in_book from.now i n
        × ClassesFit table.now }
    ensures { kept.new ≡ kept.old ++ on_question (sub_of table.now) (atoms_at stored from.now i n) }
{
    for k in 0..n {
        add_on(kept, table, from, i + k * 7);
    }
}

// The left atoms and the rule's body, each class replaced by what stands for it.
pub fn replaced(left: &Held, rule: &Rule<'_>, table: &[u8; 96]) -> Held
    requires { LeftIn left.now
        × (length left.now ≤ 8)
        × RuleIn rule.now.book.now rule.now.parts
        × ClassesFit table.now }
    ensures { result
        ≡ rewriting_of (tabled (classes_of table.now)) left.now (move 48 (rule_of rule.now.book.now rule.now.parts)) }
{
    let n = usize::from(left.bytes[0]);
    let parts = rule.parts;
    let mut whole = Held::empty();
    put_all(&mut whole, table, &left.bytes, 1, n);
    let upper = upper_half(table);
    put_all(&mut whole, &upper, rule.book, parts.body, parts.bodies);
    whole
}

// Writes the rewriting of the left atoms and the rule's body by the classes to the room lent.
pub fn put_rewriting(left: &Held, rule: &Rule<'_>, table: &[u8; 96], out: &mut [u8; RECORD])
    requires { LeftIn left.now
        × (length left.now ≤ 8)
        × RuleIn rule.now.book.now rule.now.parts
        × ClassesFit table.now }
    ensures { out.new
        ≡ held_in stored record_room
        (form
        (rewriting_of (tabled (classes_of table.now)) left.now (move 48 (rule_of rule.now.book.now rule.now.parts)))) }
{
    let whole = replaced(left, rule, table);
    in_form(&whole.bytes, out);
}
