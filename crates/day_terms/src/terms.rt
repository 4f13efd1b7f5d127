//! The terms on which a day is run and followed.

use days::Day;

/// The limit of a day's tape, in entries, if neither an argument nor the day's file has one.
pub(crate) const LIMIT_LEFT_OUT: u32 = 1_048_576;

/// The number of ports, including port 0.
pub(crate) const PORTS: usize = 65_536;

/// The terms of a day that is run.
#[derive(Drop)]
pub struct LiveTerms {
    /// The day.
    pub day: Day,
    /// The number of retransmission connections that are served. With 0 none is awaited.
    pub serves: u16,
    /// The number of seconds after which a participant that did not connect is given up. `None` waits forever.
    pub connect_within: Option<u32>,
    /// The number of seconds after the end in which followers may still ask. `None` waits for the last connection.
    pub followers_wait: Option<u32>,
}

/// The terms of a day that is followed.
#[derive(Drop)]
pub struct FollowTerms {
    /// The day.
    pub day: Day,
    /// The number of seconds in which a connection to the retransmission is tried, at the start and after one was lost. They are
    /// counted from the start again once a connection has answered, or was seen open. `None` tries once at the start, and once
    /// after a connection that has answered.
    pub connect_within: Option<u32>,
}
