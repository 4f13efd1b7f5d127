//! The operation of a day: its status, and its end before its lines close.
ghost use Rattle.std.specs.Prelude.{◌≡◌, IfOk, OnErr, OnOk, length};
ghost use Rattle.std.specs.Io.{StartsWith};

use crate::clock::nanos_of;
use crate::followers::Followers;
use crate::line_counts::SeenLine;
use crate::line_slot::LineSlot;
use crate::status::DayStatus;
use std::alloc::{AllocError, Global};
use std::rt::Clock;
use std::sync::atomic::{AtomicBool, Ordering};
use std::sync::{Arc, Wait};
use tape_types::{Listing, Participant};

/// How many nanoseconds a second has.
const SECOND: u64 = 1_000_000_000;

/// What an operator sees of a day, and can do to it. The day and whoever operates it share one.
#[derive(Drop)]
pub struct Operation {
    alloc: Global,
    /// When the day began, in nanoseconds of the clock.
    began: u64,
    /// The participants' lines, in listing order.
    pub(crate) lines: Vec<Arc<LineSlot>>,
    /// Raised when the day is ended.
    is_ended: AtomicBool,
    /// Raised when followers are to be waited for no longer.
    pub(crate) hurried: AtomicBool,
    /// The connections of the retransmission.
    pub(crate) followers: Followers,
}

impl Operation {
    /// The operation of a day of this listing that begins at this time and serves this many connections of the retransmission.
    /// Nobody has connected.
    pub fn new<R: Clock>(
        rt: &R,
        alloc: Global,
        listing: &Listing,
        serves: u16,
    ) -> Result<Operation, AllocError>
        ensures lines { IfOk result (λ operation. length operation.lines.items ≡ length listing.now.participants) }
    {
        let participants = listing.participants().as_slice();
        let mut lines = Vec::with_capacity(alloc, participants.len())?;
        for who in participants {
            lines.push(Arc::new(alloc, LineSlot::new(*who))?)?;
        }
        Ok(Operation {
            alloc,
            began: nanos_of(rt),
            lines,
            is_ended: AtomicBool::new(false),
            hurried: AtomicBool::new(false),
            followers: Followers::new(rt, alloc, serves),
        })
    }

    /// Ends the day as if every line closed at this moment: what was read of the lines is admitted, connections that did not
    /// come are waited for no longer, and the day goes on to its end and its report. It doesn't wait for that, and returns
    /// whether it was the first call. From the second call on followers are waited for no longer either.
    pub fn end(&self) -> bool {
        if self.is_ended.swap(true, Ordering::SeqCst) {
            self.hurried.store(true, Ordering::SeqCst);
            return false;
        }
        for line in self.lines.as_slice() {
            line.stop();
        }
        true
    }

    /// Notes, before the day runs, that this participant's line goes on after `admitted` messages of the day's journal, the
    /// last of which had the number `last`. If the participant is not one of the day's, nothing changes.
    pub fn go_on<R: Wait>(&self, rt: &R, who: Participant, admitted: u32, last: u32) {
        for line in self.lines.as_slice() {
            if line.is_of(rt, who) {
                line.go_on(rt, admitted, last);
            }
        }
    }

    /// Whether the day was ended.
    pub(crate) fn is_ended(&self) -> bool {
        self.is_ended.load(Ordering::SeqCst)
    }

    /// How long the day has run, in whole seconds.
    pub(crate) fn seconds<R: Clock>(&self, rt: &R) -> u64 {
        nanos_of(rt).saturating_sub(self.began) / SECOND
    }

    /// Returns what is known of each line, in listing order, each as it is at one moment.
    pub(crate) fn seen<R: Wait>(&self, rt: &R) -> Result<Vec<SeenLine>, AllocError> {
        let mut seen = Vec::with_capacity(self.alloc, self.lines.len())?;
        for line in self.lines.as_slice() {
            seen.push(line.seen(rt))?;
        }
        Ok(seen)
    }

    /// Appends the day's status to `text`, as lines: for how long it runs, its tape number and messages a second, each
    /// participant with what became of its messages, each connection of the retransmission, and what the day's end waits for.
    /// If memory runs out, nothing is.
    pub fn put_status<R: Wait + Clock>(&self, rt: &R, text: &mut Vec<u8>) -> Result<(), AllocError>
        ensures kept { OnOk result (StartsWith text.new.items text.old.items) }
        ensures same { OnErr result (text.new.items ≡ text.old.items) }
    {
        let (seen, followers) = (self.seen(rt)?, self.followers.seen(rt)?);
        let status = DayStatus::new(self.seconds(rt), self.is_ended(), seen, followers);
        let lines = format!(in self.alloc; "{status}")?;
        text.extend_from_slice(lines.as_bytes())
    }
}
