//! How a follower's day ends.
ghost use Rattle.std.specs.Prelude.{◌≡◌, Err, IfErr, IsOk, OnOk};
ghost use Rattle.feed_follower.specs.Reported.{follow_fault};

use crate::{FollowAccount, FollowFault};
use feed_ends::Fault;

/// How a follower's day ended.
#[derive(Clone, Copy, PartialEq, Eq)]
pub struct FollowEnd {
    /// `Ok` if it ended well, otherwise what ended it.
    pub ended: Result<(), FollowFault>,
    /// Of how many entries the report is that was written whole and flushed, or why it was not. `None` if none was to be
    /// written; nothing was written then, nor after a fault other than `Write`.
    pub report: Option<Result<u32, Fault>>,
    /// What was heard.
    pub account: FollowAccount,
}

impl FollowEnd {
    /// Returns the day's fault, which has the status, if it did not end well.
    pub fn outcome(&self) -> Result<(), Fault>
        ensures done { OnOk self.now.ended (IsOk result) }
        ensures fault { IfErr self.now.ended (λ fault. result ≡ Err (follow_fault fault)) }
    {
        self.ended.map_err(FollowFault::fault)
    }
}
