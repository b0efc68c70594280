// The lister of one-step rewritings: the next rewriting of a question by a rule, from a choice on. Choices are built up
// atom by atom over the classes of `unify`.
#![tactic(auto)]

mod ahead;
mod builder;
mod leaving;
mod powers;
mod prefix;
mod writing;

pub use builder::next;
pub use prefix::{after_prefix, prefix_rewriting};
pub use unify::{Rule, has_unknowns};
