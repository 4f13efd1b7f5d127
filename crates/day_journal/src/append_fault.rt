//! Lists the reasons why a group is not appended.

/// Why a group was not appended.
#[derive(Clone, Copy, Debug, PartialEq, Eq)]
pub enum AppendFault {
    /// A write failed, so the journal ends with a front of the group, which may be empty. Nothing more can be appended.
    WriteFault,
    /// A write had failed before: nothing was written.
    Broken,
    /// Memory ran out for the group's bytes: nothing was written, and the writer is as it was.
    OutOfMemory,
}
