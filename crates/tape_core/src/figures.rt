//! Holds a participant's count of messages, sum of sizes and last number on a tape.

/// A participant's figures on a tape. All three are 0 if the tape has no message of it.
#[derive(Clone, Copy, Debug, PartialEq, Eq)]
pub struct Figures {
    /// How many of its messages the tape has, of every kind.
    pub count: u32,
    /// The shares of its reports, each as it was first reported, added up.
    pub sizes: u64,
    /// Its greatest message number.
    pub last: u32,
}
