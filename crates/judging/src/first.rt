// The refusal at the first place that is wrong. The search for it is the library's `find`.
ghost use Rattle.std.specs.Prelude.{◌≡◌};
ghost use Rattle.reading.specs.Told.{number_of, judged};
ghost use Rattle.judging.specs.Found.{told_at};

use reading::{Reason, Refused};

// Refused for this reason at the place that was found, if one was.
pub fn refused_at(found: Option<usize>, reason: Reason) -> Result<(), Refused>
    ensures { judged result ≡ told_at (number_of reason) found }
{
    match found {
        None => Ok(()),
        Some(place) => Err(Refused {
            reason: reason,
            place: place,
        }),
    }
}
