//! The errors of reading a running day's arguments.

/// Why arguments name no running day.
#[derive(Clone, Copy, Debug, PartialEq, Eq)]
pub enum WordsFault {
    /// There are too few or too many arguments, or one is not valid in its place.
    BadArguments,
    /// Memory ran out for the names or the ports.
    OutOfMemory,
}
