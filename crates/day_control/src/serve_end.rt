//! How a connection ended, and how many of its lines were answered.

/// Why a connection ended.
#[derive(Clone, Copy, Debug, PartialEq, Eq)]
pub enum ControlOutcome {
    /// The input ended after a line's end.
    Clean,
    /// The input ended within a line, which gets no answer.
    Truncated,
    /// A line was longer than `LINE_MOST` bytes. It got the answer to an unknown command.
    TooLong,
    /// A read failed, or brought nothing in time.
    ReadFault,
    /// A write or a flush of an answer failed.
    WriteFault,
    /// Memory ran out for the answer to a status.
    OutOfMemory,
    /// The most lines were answered.
    TooMany,
}

/// How many lines of a connection were answered, and why it ended.
#[derive(Clone, Copy, Debug, PartialEq, Eq)]
pub struct ControlEnd {
    /// The lines that were answered whole, except for one that was too long.
    pub served: u32,
    /// Why it ended.
    pub ended: ControlOutcome,
}
