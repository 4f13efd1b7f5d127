//! A follower's side of a day over sockets: it reads two lossy lines and a retransmission, gives each entry to a sink, and
//! writes the report of the tape that it comes to hold.
#![tactic(auto)]

mod account;
mod account_lines;
mod conflicts;
mod day;
mod follow;
mod follow_end;
mod follow_fault;
mod followed;
mod follower;
mod heard;
mod held_name;
mod inbox;
mod line_positions;
mod lines;
mod replaying;
mod requester;
mod run;
mod shared_follower;
mod silence;
mod sink;
mod sockets;
mod tries;

pub use account::{FollowAccount, LineCounts};
pub use account_lines::account_of;
pub use day::{follow_day, follow_tape_day};
pub use follow::{follow_ended, follow_over, follow_tape};
pub use follow_end::FollowEnd;
pub use follow_fault::FollowFault;
pub use sink::{EntrySink, NoSink, SinkFault};
pub use sockets::FollowSockets;
