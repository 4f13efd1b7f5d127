//! The sender's side of a day over sockets: participants' lines in, two lossy lines and a retransmission out, and the day's
//! report.
#![tactic(auto)]

mod accepting;
mod account;
mod bell;
mod budget;
mod clock;
mod counted;
mod doors;
mod feed;
mod follower_counts;
mod followers;
mod gathered;
mod journal;
mod journal_file;
mod keeper;
mod line_counts;
mod line_input;
mod line_slot;
mod live;
mod loss;
mod opening;
mod operated_day;
mod operation;
mod pace;
mod patience;
mod publishing;
mod queue;
mod quiet;
mod reporting;
mod request_flag;
mod restoring;
mod retransmission;
mod running;
mod same_entries;
mod seated;
mod sender;
mod serving;
mod sockets;
mod starting;
mod status;

pub use journal::{DayJournal, Restored};
pub use journal_file::{JournalFile, KeepFault, MemoryJournal};
pub use live::{live_over, run_live};
pub use loss::{Loss, NoLoss};
pub use operated_day::{LiveEnd, live_day};
pub use operation::Operation;
pub use sockets::LiveSockets;
