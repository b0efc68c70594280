// The atoms that a choice leaves: a record of them, written from a bit for each atom, 1 for those that are sent, the last
// atom's the lowest.
ghost use Rattle.std.specs.Prelude.{◌≡◌, [], ◌≤◌, get_or};
ghost use Rattle.lister.specs.Leaving.{left_by};
ghost use Rattle.lister.specs.Listing.{QuestionIn};

use covering::RECORD;
use forming::{Held, add_atom};

// Puts those of the first n atoms that are left after each other in a record with no atom yet, which is lent.
pub fn put_left(left: &mut Held, question: &[u8; RECORD], n: usize, sent: usize)
    requires { (left.old ≡ [])
        × QuestionIn question.now
        × (n ≤ get_or question.now 0 0) }
    ensures { left.new ≡ left_by question.now n sent }
{
    if n == 0 {
        return;
    }
    put_left(left, question, n - 1, sent / 2);
    if sent % 2 == 1 {
        return;
    }
    add_atom(left, question, 1 + (n - 1) * 7);
}
