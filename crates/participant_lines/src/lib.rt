//! Runs the lines of a day's participants: each brings its messages as bytes, and all of them run at once over one shared tape.
#![tactic(auto)]

mod frame;
mod line_end;
mod lines;
mod running;
mod seats;
mod tally;
mod unstarted;
mod watch;

pub use line_end::{LineEnd, LineOutcome, TalliedEnd};
pub use lines::{run_lines, run_watched_lines};
pub use running::{FRAMES_MOST, run_line};
pub use seats::{seats_of_ends, seats_of_lines, seats_of_tallied};
pub use tally::{ALL_REASONS, Reason, RefusedFrame, RefusedFrames, Tally, each_reason};
pub use unstarted::{Lack, Unstarted};
pub use watch::LineWatch;
