//! The faults that end a follower's day, with what names them.
ghost use Rattle.std.specs.Prelude.{◌≡◌};
ghost use Rattle.feed_follower.specs.Reported.{IsNamed, follow_fault};
ghost use Rattle.feed_follower.specs.declared.follow_fault.FollowFault.TheVariants.{Ended};

use feed_ends::Fault;
use std::io::ErrorKind;

/// What ends a follower's day before its end, as far as it can be named.
#[derive(Clone, Copy, PartialEq, Eq)]
pub enum FollowFault {
    /// A fault that has no other name than its status.
    Ended(Fault),
    /// The retransmission could not be reached.
    Unreachable {
        /// Its port, on this machine.
        port: u16,
        /// The kind of the system's error.
        kind: ErrorKind,
    },
    /// Under this number the retransmission has another entry than the one held, or has one although none is known.
    OtherEntry(u32),
}

impl From<Fault> for FollowFault {
    ghost from_gives = { λ fault follow. follow ≡ Ended fault };

    fn from(fault: Fault) -> FollowFault {
        FollowFault::Ended(fault)
    }
}

impl FollowFault {
    /// Returns the day's fault, which has the status: 3 if the retransmission could not be reached, 7 for another entry.
    pub fn fault(self) -> Fault
        ensures { result ≡ follow_fault self }
    {
        match self {
            FollowFault::Ended(fault) => fault,
            FollowFault::Unreachable { .. } => Fault::Read,
            FollowFault::OtherEntry(_) => Fault::Disagrees,
        }
    }

    /// Returns what names a fault if it is of that fault, otherwise the fault itself.
    pub(crate) fn naming(fault: Fault, why: Option<FollowFault>) -> FollowFault
        ensures fault { follow_fault result ≡ fault }
        ensures named { IsNamed why fault result }
    {
        match why {
            Some(named) if named.fault() == fault => named,
            _ => FollowFault::Ended(fault),
        }
    }
}
