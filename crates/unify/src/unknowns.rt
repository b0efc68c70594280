// Whether a rule has existential variables: those of its head that stand nowhere in its body. By a rule without them every
// choice is valid, so that this is worth asking once for all its choices.
ghost use Rattle.std.specs.Prelude.{◌≡◌, not, ◌&&◌, ◌+◌, ◌≤◌, length};
ghost use Rattle.covering.specs.Lists.{any};
ghost use Rattle.covering.specs.Term.{terms, is_var};
ghost use Rattle.covering.specs.Record.{stored, term_of, args_at, atoms_at};
ghost use Rattle.unification.specs.Step.{mem_term};
ghost use Rattle.unify.specs.InBytes.{rule_of};
ghost use Rattle.unify.specs.Unknowns.{has_unknowns};

use crate::Rule;
use records::stands_in;

// Whether the term u is a variable that stands in none of the body's atoms.
fn is_unknown(rule: &Rule<'_>, u: u8) -> bool
    ensures { result
        ≡ (is_var (term_of u) && not (mem_term (term_of u) (terms (atoms_at stored rule.now.book.now rule.now.parts.body rule.now.parts.bodies)))) }
{
    if 128 <= u {
        return false;
    }
    !stands_in(rule.book, rule.parts.body, rule.parts.bodies, u)
}

// Whether one of the terms in the used places from i on is such a variable.
fn unknown_in_places(rule: &Rule<'_>, i: usize) -> bool
    requires { i + 6 ≤ length rule.now.book.now }
    ensures { result
        ≡ any
        (λ t. is_var t && not (mem_term t (terms (atoms_at stored rule.now.book.now rule.now.parts.body rule.now.parts.bodies))))
        (args_at rule.now.book.now i 6) }
{
    for j in 0..6 {
        let u = rule.book[i + j];
        if u == 255 {
            return false;
        }
        if is_unknown(rule, u) {
            return true;
        }
    }
    false
}

// Whether the rule has existential variables.
pub fn has_unknowns(rule: &Rule<'_>) -> bool
    ensures { result ≡ has_unknowns (rule_of rule.now.book.now rule.now.parts) }
{
    let parts = rule.parts;
    (0..parts.heads).any(|k| unknown_in_places(rule, parts.head + k * 7 + 1))
}
