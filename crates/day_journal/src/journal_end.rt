//! Says how a journal ends: whole, torn or damaged, and where.

/// How a journal ends after the groups that were read of it.
#[derive(Clone, Copy, Debug, PartialEq, Eq)]
pub enum JournalEnd {
    /// With a whole group, or with its header.
    Whole,
    /// Within a group, as after a write that was cut: from this byte of the journal on there is no whole group, and nothing
    /// after it. Cutting the journal there loses no entry of a whole group.
    Torn {
        /// How many bytes of the journal are whole groups and the header.
        from: usize,
    },
    /// With bytes that are neither the next group nor the front of one.
    Damaged {
        /// The number of the first entry that the damaged group should have.
        first: u32,
        /// How many entries it should have by its own end; `None` if the lengths of its packets do not lead there.
        count: Option<u32>,
    },
}
