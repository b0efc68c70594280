// The union while a run builds it.
ghost use Rattle.std.specs.Prelude.{◌≡◌, ◌+◌, ◌≤◌, ◌<◌, length};
ghost use Rattle.covering.specs.Search.{covers};
ghost use Rattle.covering.specs.Record.{stored, question_of, SoundRecord};
ghost use Rattle.exploration.specs.Run.{limits_for, covered, taken_up};
ghost use Rattle.admit.specs.WorkingArray.{alone, Stands, UnionFateIs};

use super::admitting::admit;
use super::searching::member_covering;
use super::sets::of_one;
use super::working::append;
use super::{Extent, FIRST, Fate, OUTPUT, ROOM};
use cover::VARIABLES;
use covering::RECORD;
use reading::Reason;
use std::marker::Model;

// Before the first member.
const EMPTY: Extent = Extent {
    len: FIRST,
    count: 0,
    front: 0,
};

// The members of the union, in order of arrival: their records stand in one array as they will be written, and beside it
// there is a set of relations for each.
#[derive(Drop)]
pub struct Members {
    pub work: [u8; OUTPUT],
    pub sets: [u64; ROOM],
    pub filled: Extent,
}

// Clauses see the members, and how many of them are explored.
impl Model for Members {
    ghost use Rattle.exploration.specs.Run.{State};
    ghost use Rattle.admit.specs.WorkingArray.{state_in, Working};
    ghost use Rattle.admit.specs.Sets.{Beside};

    ghost Value = { State };

    ghost view = { λ m. state_in m.work m.filled };

    ghost invariant = { λ m. Working m.work m.filled × Beside m.sets m.work m.filled.count };
}

impl Members {
    // The first member alone, unexplored.
    pub fn of(first: &[u8; RECORD]) -> Members
        requires { SoundRecord stored first.now × (length (question_of stored first.now) ≤ 9) }
        ensures { result ≡ alone (question_of stored first.now) }
    {
        let mut members = Members {
            work: [0u8; OUTPUT],
            sets: of_one(first),
            filled: EMPTY,
        };
        let len = append(&mut members.work, FIRST, first);
        members.filled = Extent {
            len,
            count: 1,
            front: 0,
        };
        members
    }

    // How many they are.
    pub fn count(&self) -> usize
        ensures { (result ≡ length self.now.members) × (result ≤ 64) }
    {
        self.filled.count
    }

    // How many of them are explored: these stand in front.
    pub fn explored(&self) -> usize
        ensures { (result ≡ self.now.explored) × (result ≤ length self.now.members) }
    {
        self.filled.front
    }

    // Their records as they stand, and what comes after the last one.
    pub fn bytes(&self) -> &[u8]
        ensures { Stands result.now self.now.members }
    {
        &self.work
    }

    // Whether one of them covers the question.
    pub fn covers(&self, question: &[u8; RECORD]) -> bool
        requires { SoundRecord stored question.now }
        ensures { result ≡ covered covers (question_of stored question.now) self.now.members }
    {
        let there = records::relations(question);
        let mut map = [255u8; VARIABLES];
        let sets = &self.sets[..self.filled.count];
        member_covering(&self.work, sets, question, there, &mut map).is_some()
    }

    // Takes up the oldest unexplored one: it counts as explored from now on.
    pub fn take_up(&mut self)
        requires { self.old.explored < length self.old.members }
        ensures { self.new ≡ taken_up self.old }
    {
        self.filled.front += 1;
    }

    // Drops the rewriting if a member covers it; else refuses it as too long where it has more than `answers` answer
    // records and 8 atoms, removes what it covers, refuses where there is no room, or appends it, and its set of relations.
    pub fn admit(&mut self, rewriting: &[u8; RECORD], answers: u8) -> Result<Fate, Reason>
        requires { SoundRecord stored rewriting.now × (answers ≤ 1) }
        ensures { UnionFateIs
            (limits_for answers)
            self.old
            (question_of stored rewriting.now)
            self.new
            result }
    {
        admit(
            &mut self.work,
            &mut self.sets,
            &mut self.filled,
            rewriting,
            answers,
        )
    }
}
