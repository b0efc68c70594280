// The two forms of a book.
ghost use Rattle.std.specs.Prelude.{◌≡◌};
ghost use Rattle.reading.specs.Header.{form_for};

use super::words::{NEW_HEADER, OLD_HEADER, OLD_PLACES, PLACES};

// A form: its atoms have four places, or six.
#[derive(Clone, Copy, Debug, PartialEq, Eq)]
pub enum Form {
    Old,
    New,
}

impl Form {
    ghost use Rattle.judging.specs.Forms.{form_named};

    // The form of a book whose relations are at `table`. What has another offset than 20 is judged as old.
    pub fn told_by(table: usize) -> Form
        ensures { form_named result ≡ form_for table }
    {
        if table == NEW_HEADER {
            return Form::New;
        }
        Form::Old
    }

    // The bytes of its header, which the relations follow.
    pub fn header(self) -> usize
        ensures { result ≡ (form_named self).header }
    {
        match self {
            Form::Old => OLD_HEADER,
            Form::New => NEW_HEADER,
        }
    }

    // The places of its atoms.
    pub fn places(self) -> usize
        ensures { result ≡ (form_named self).places }
    {
        match self {
            Form::Old => OLD_PLACES,
            Form::New => PLACES,
        }
    }
}
