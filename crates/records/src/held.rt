// Records as the code has them: one that is lent where it stands, and one of its own, in 85 bytes. In a clause each is
// its question.
ghost use Rattle.std.specs.Prelude.{◌≡◌, [], length};
ghost use mathlib.Core.Path.{sym};
ghost use Rattle.covering.specs.Term.{Question};
ghost use Rattle.covering.specs.Record.{stored, question_of, SoundRecord};
ghost use Rattle.covering.specs.Buffer.{held_in, record_room};
ghost use Rattle.records.specs.Holding.{HeldRecord};

use covering::RECORD;
use std::marker::Model;

// A sound record where it stands: bytes that begin with one, and may go on after it.
#[derive(Drop)]
pub struct Record<'a> {
    pub bytes: &'a [u8],
}

impl<'a> Model for Record<'a> {
    ghost Value = { Question };

    ghost view = { λ r. question_of stored r.bytes.now };

    ghost invariant = { λ r. SoundRecord stored r.bytes.now };
}

impl<'a> Record<'a> {
    // How many atoms it has, its answer record among them.
    pub fn count(&self) -> u8
        ensures { result ≡ length self.now }
    {
        self.bytes[0]
    }
}

// A sound record at the front of 85 bytes, the rest 255.
#[derive(Clone, Copy)]
pub struct Held {
    pub bytes: [u8; RECORD],
}

impl Model for Held {
    ghost Value = { Question };

    ghost view = { λ r. question_of stored r.bytes };

    ghost invariant = { λ r. HeldRecord r.bytes };

    // the question has all of its bytes
    ghost inverse = { λ A. record { bytes = held_in stored record_room A } };

    ghost inverse_ok = { λ r h i. record { bytes = sym h.rest i } };
}

// The bytes of a record with no atom yet.
pub fn no_atoms() -> [u8; RECORD]
    ensures { result ≡ held_in stored record_room [] }
{
    let mut kept = [255u8; RECORD];
    kept[0] = 0;
    kept
}

impl Held {
    // A record with no atom yet.
    pub fn empty() -> Held
        ensures { result ≡ [] }
    {
        Held { bytes: no_atoms() }
    }

    // The record where it stands.
    pub fn lent(&self) -> Record<'_>
        ensures { result ≡ self.now }
    {
        Record { bytes: &self.bytes }
    }
}
