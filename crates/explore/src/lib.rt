// The exploration: one book in, the whole union or a numbered refusal out. What the run is, and what it is worth, stands
// in `exploration`; specs/ says how the functions hold its state.
#![tactic(auto)]

mod exploring;
mod related;
mod rules;
mod skipping;
mod taking_up;
mod whole_run;

pub use admit::OUTPUT;
pub use whole_run::{answer_records, run};

// The relations of a rule's head, a set, and whether the rule has existential variables.
#[derive(Clone, Copy)]
pub struct Head {
    pub relations: u64,
    pub unknowns: bool,
}

// The next rewriting: the numbers of its rule and of its choice. Its record goes to the room that is lent for it.
#[derive(Clone, Copy)]
pub struct Taken {
    pub rule: usize,
    pub choice: usize,
}

// How long an exploration waits before it asks whether choices can be passed over: by that rule, so many drops more, and
// so many the next time.
#[derive(Clone, Copy)]
pub struct Patience {
    pub rule: usize,
    pub drops: usize,
    pub next: usize,
}

// Where the exploration goes on after a drop, and how patient it is then.
#[derive(Clone, Copy)]
pub struct Resumed {
    pub from: usize,
    pub patience: Patience,
}
