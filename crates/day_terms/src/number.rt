//! Reads the numbers of a day's file, each within the range of its key.
ghost use Rattle.std.specs.Prelude.{◌≤◌, IfOk};
ghost use Rattle.toml.specs.View.{view};
ghost use Rattle.day_terms.specs.Faults.{Gives};
ghost use Rattle.day_terms.specs.Keys.{key_least, key_most};
ghost use Rattle.day_terms.specs.Numbers.{number_at};

use crate::{DayFault, DayKey, FilePlace, ValueKind};
use toml::Value;

/// Returns the number that a value is, within the range of a key.
pub(crate) fn number_of(key: DayKey, place: FilePlace, value: &Value) -> Result<u64, DayFault>
    ensures number { Gives (λ number. number) result (number_at key place (view value.now)) }
    ensures least { IfOk result (λ number. key_least key ≤ number) }
    ensures most { IfOk result (λ number. number ≤ key_most key) }
{
    let Some(number) = value.as_integer() else {
        return Err(DayFault::OtherKind {
            place,
            found: ValueKind::of(value),
        });
    };
    let (least, most) = key.range();
    match u64::try_from(number) {
        Ok(number) if least <= number && number <= most => Ok(number),
        _ => Err(DayFault::OutOfRange(place)),
    }
}

/// Returns the number that a value is, for a key whose range has 16 bits.
pub(crate) fn short_of(key: DayKey, place: FilePlace, value: &Value) -> Result<u16, DayFault>
    requires short { key_most key ≤ 65535 }
    ensures number { Gives (λ number. number) result (number_at key place (view value.now)) }
{
    Ok(number_of(key, place, value)? as u16)
}
