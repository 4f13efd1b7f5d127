//! Reads the booleans of a day's file.
ghost use Rattle.toml.specs.View.{view};
ghost use Rattle.day_terms.specs.Entries.{boolean_at};
ghost use Rattle.day_terms.specs.Faults.{Gives};

use crate::{DayFault, FilePlace, ValueKind};
use toml::Value;

/// Returns the boolean that a value is.
pub(crate) fn boolean_of(place: FilePlace, value: &Value) -> Result<bool, DayFault>
    ensures { Gives (λ is. is) result (boolean_at place (view value.now)) }
{
    match value.as_bool() {
        Some(is) => Ok(is),
        None => Err(DayFault::OtherKind {
            place,
            found: ValueKind::of(value),
        }),
    }
}
