// The definitions of the stored book and of its refusals, and their laws: specs/ and proofs/. The code is in `book`;
// declared here are the header that the definitions speak of, and a refusal with 01's number of its reason.
#![tactic(auto)]

ghost use Rattle.std.specs.Prelude.{◌≡◌};
ghost use Rattle.reading.specs.Told.{number_of};

// The words of a book's header, in their order: the tenth tells how many places an atom has, which are four in a book
// that has nine.
#[derive(Clone, Copy)]
pub struct Header {
    pub relations: usize,
    pub constants: usize,
    pub rules: usize,
    pub atoms: usize,
    pub allowed: usize,
    pub table: usize,
    pub start: usize,
    pub question: usize,
    pub total: usize,
    pub places: usize,
}

// Why nothing is written, in the order of 01's numbers: 1 to 11, and 13.
#[derive(Clone, Copy, Debug, PartialEq, Eq)]
pub enum Reason {
    ShortOutput,
    ShortBook,
    OutsideTable,
    WrongOffset,
    WrongRelation,
    WrongRule,
    WrongByte,
    TooLong,
    NoRoom,
    NoneLeft,
    LooseAnswer,
    NoOldForm,
}

impl From<Reason> for u8 {
    ghost from_gives = { λ reason n. n ≡ number_of reason };

    fn from(reason: Reason) -> u8 {
        match reason {
            Reason::ShortOutput => 1,
            Reason::ShortBook => 2,
            Reason::OutsideTable => 3,
            Reason::WrongOffset => 4,
            Reason::WrongRelation => 5,
            Reason::WrongRule => 6,
            Reason::WrongByte => 7,
            Reason::TooLong => 8,
            Reason::NoRoom => 9,
            Reason::NoneLeft => 10,
            Reason::LooseAnswer => 11,
            Reason::NoOldForm => 13,
        }
    }
}

// A refusal: why, and the place.
#[derive(Clone, Copy, Debug, PartialEq, Eq)]
pub struct Refused {
    pub reason: Reason,
    pub place: usize,
}
