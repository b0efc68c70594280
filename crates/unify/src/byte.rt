// Terms as bytes: the rule's variables moved up by 48, and what stands for a term's class.
ghost use Rattle.std.specs.Prelude.{◌≡◌, ◌≤◌, length};
ghost use Rattle.covering.specs.Term.{on_term};
ghost use Rattle.covering.specs.Record.{term_of};
ghost use Rattle.unification.specs.Step.{up};
ghost use Rattle.unify.specs.Table.{look};
ghost use Rattle.unify.specs.InBytes.{classes_of};

// A term, its variable moved up by shift: 0 for a left atom's term, 48 for a rule's.
pub fn shifted(u: u8, shift: u8) -> u8
    requires { (48 ≤ u → 128 ≤ u) × (shift ≤ 48) }
    ensures { term_of result ≡ on_term (up shift) (term_of u) }
{
    if u < 48 {
        return shift + u;
    }
    u
}

// A rule's term, its variable moved up by 48.
pub fn moved(u: u8) -> u8
    requires { 48 ≤ u → 128 ≤ u }
    ensures { term_of result ≡ on_term (up 48) (term_of u) }
{
    shifted(u, 48)
}

// The term that stands for t's class.
pub fn stands_for(table: &[u8], t: u8) -> u8
    requires { length table.now ≡ 96 }
    ensures { term_of result ≡ look (classes_of table.now) (term_of t) }
{
    if t < 96 {
        return table[usize::from(t)];
    }
    t
}
