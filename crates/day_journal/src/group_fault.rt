//! Lists the reasons why no group is read.

/// Why the bytes do not begin with the next group.
#[derive(Clone, Copy, Debug, PartialEq, Eq)]
pub enum GroupFault {
    /// They end within what may be the front of the next group, as after a write that was cut.
    Torn,
    /// They are neither the next group nor the front of one.
    Damaged,
    /// Memory ran out for the entries.
    OutOfMemory,
}
