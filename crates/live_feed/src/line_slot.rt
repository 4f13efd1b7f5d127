//! A participant's line as the threads of a day share it.

use crate::bell::Bell;
use crate::line_counts::{LineStage, SeenLine};
use participant_lines::{LineWatch, Tally};
use std::sync::atomic::{AtomicBool, Ordering};
use std::sync::{Arc, Mutex, Wait};
use tape_types::{Gate, Participant};

/// A line, as its thread shares it with an operator who looks on and may end the day.
#[derive(Drop)]
pub(crate) struct LineSlot {
    /// Raised when the day is ended: nothing more is read.
    is_over: AtomicBool,
    /// Raised when a read finds the day ended.
    was_cut: AtomicBool,
    /// Raised when the line has dropped its reader.
    is_closed: AtomicBool,
    /// What is known of the line: one text of counters, which this lock guards.
    seen: Mutex<SeenLine>,
}

impl LineSlot {
    /// The line of a participant that has not connected.
    pub(crate) fn new(who: Participant) -> LineSlot {
        LineSlot {
            is_over: AtomicBool::new(false),
            was_cut: AtomicBool::new(false),
            is_closed: AtomicBool::new(false),
            seen: Mutex::new(SeenLine::awaited(who)),
        }
    }

    /// Whether it is this participant's line.
    pub(crate) fn is_of<R: Wait>(&self, rt: &R, who: Participant) -> bool {
        self.seen.lock(rt).who == who
    }

    /// Ends the line's reading: nothing more is read.
    pub(crate) fn stop(&self) {
        self.is_over.store(true, Ordering::SeqCst)
    }

    /// Whether the line's reading was ended, which is noted if so: the line is still open.
    pub(crate) fn meets_stop(&self) -> bool {
        let is_over = self.is_over.load(Ordering::SeqCst);
        if is_over {
            self.was_cut.store(true, Ordering::SeqCst);
        }
        is_over
    }

    /// Whether the line was open when its reading was ended.
    pub(crate) fn was_cut(&self) -> bool {
        self.was_cut.load(Ordering::SeqCst)
    }

    /// Notes that the line has dropped its reader.
    pub(crate) fn close(&self) {
        self.is_closed.store(true, Ordering::SeqCst)
    }

    /// Notes how far the line has come.
    pub(crate) fn set_stage<R: Wait>(&self, rt: &R, stage: LineStage) {
        self.seen.lock(rt).stage = stage
    }

    /// Notes that the line goes on after this many messages of a journal, the last with this number. The day doesn't run yet.
    pub(crate) fn go_on<R: Wait>(&self, rt: &R, admitted: u32, last: u32) {
        let mut seen = self.seen.lock(rt);
        *seen = seen.going_on(admitted, last);
    }

    /// Notes what became of the line's messages so far, unless someone looks on at this moment: the next message makes up for
    /// it. It never waits.
    fn count(&self, done: u32, last: u32, tally: &Tally) {
        if let Some(mut seen) = self.seen.try_lock() {
            *seen = seen.after(done, last, tally);
        }
    }

    /// What is known of the line at this moment.
    pub(crate) fn seen<R: Wait>(&self, rt: &R) -> SeenLine {
        let seen = *self.seen.lock(rt);
        match seen.stage {
            LineStage::Open(since) if self.is_closed.load(Ordering::SeqCst) => SeenLine {
                stage: LineStage::Closed(since),
                ..seen
            },
            _ => seen,
        }
    }
}

/// Rings the bell after each message of a line, and counts the message if the day has slots for its lines.
#[derive(Drop)]
pub(crate) struct CountingBell<'a> {
    pub(crate) bell: &'a Bell,
    /// The slots of the lines, in their order, or none.
    pub(crate) slots: &'a [Arc<LineSlot>],
}

impl LineWatch for CountingBell<'_> {
    fn after_frame(&self, line: usize, done: u32, last: u32, tally: &Tally) {
        if let Some(slot) = self.slots.get(line) {
            slot.count(done, last, tally);
        }
        self.bell.between(line, done)
    }
}
