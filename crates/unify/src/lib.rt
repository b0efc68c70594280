// Unification: classes of terms, put together as a choice requires, and whether a choice is valid. The question is a
// member record in form; the rule stands in its book. The rule's variables are moved up by 48, above the question's, so
// classes are over 96 variables: 96 bytes, at each variable's number the byte of the term that stands for its class.
// They are lent as a slice: who has them in a part of a buffer lends that part.
#![tactic(auto)]

ghost use Rattle.std.specs.Prelude.{◌+◌, ◌*◌, ◌≤◌, length};

use book::Parts;

mod byte;
mod joining;
mod stuck;
mod unknowns;
mod validity;

pub use joining::{all_apart, join_atoms};
pub use stuck::some_stuck;
pub use unknowns::has_unknowns;
pub use validity::is_valid;

// A rule where it stands: its book, and where in it the body and the head are. They end within the book.
#[derive(Clone, Copy)]
pub struct Rule<'a> {
    pub book: &'a [u8],
    pub parts: Parts,
    pub ghost body_inside: { parts.body + parts.bodies * 7 ≤ length book.now },
    pub ghost head_inside: { parts.head + parts.heads * 7 ≤ length book.now },
}
