//! Reads the clock of a day.

use std::rt::Clock;

/// Returns the clock's time in nanoseconds, or 0 if it can't be read.
pub(crate) fn nanos_of<R: Clock>(rt: &R) -> u64 {
    match rt.monotonic() {
        Ok(time) => u64::try_from(time.as_nanos()).unwrap_or(u64::MAX),
        Err(_) => 0,
    }
}
