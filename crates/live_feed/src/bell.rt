//! The bell by which the lines wake the sender.

use std::sync::Wait;
use std::sync::atomic::{AtomicBool, Ordering};
use std::thread::Parker;
use std::time::Duration;
use tape_types::Gate;

/// The lines ring it after each message, and once when they have ended. Only the sender waits for it.
/// No ring is lost: one that comes while nobody waits ends the next wait at once.
#[derive(Drop)]
pub(crate) struct Bell {
    ended: AtomicBool,
    parker: Parker,
}

impl Bell {
    /// A bell that has not rung.
    pub(crate) fn new() -> Bell {
        Bell {
            ended: AtomicBool::new(false),
            parker: Parker::new(),
        }
    }

    /// Rings for the last time: the lines have ended.
    pub(crate) fn end(&self) {
        self.ended.store(true, Ordering::SeqCst);
        self.parker.unpark()
    }

    /// Whether the lines have ended.
    pub(crate) fn has_ended(&self) -> bool {
        self.ended.load(Ordering::SeqCst)
    }

    /// Waits for a ring.
    pub(crate) fn wait<R: Wait>(&self, rt: &R) {
        self.parker.park(rt)
    }

    /// Waits for a ring, but no longer than this many nanoseconds. It may return early.
    pub(crate) fn wait_within<R: Wait>(&self, rt: &R, most: u64) {
        self.parker.park_timeout(rt, Duration::from_nanos(most))
    }
}

impl Gate for Bell {
    fn between(&self, _worker: usize, _turn: u32) {
        self.parker.unpark()
    }
}
