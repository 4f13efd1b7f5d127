//! For how long followers are waited for after a day's end.
ghost use Rattle.std.specs.Prelude.{◌≡◌};
ghost use Rattle.live_feed.specs.Patience.{has_passed, is_enough};

use crate::followers::Followers;
use crate::line_slot::LineSlot;
use std::sync::Arc;
use std::sync::atomic::{AtomicBool, Ordering};

/// How many nanoseconds a second has.
const SECOND: u64 = 1_000_000_000;

/// How an operated day's followers and lines are looked at, and for how long followers are waited for after the end.
#[derive(Clone, Copy)]
pub(crate) struct Watch<'a> {
    /// For how many seconds after the end followers may still ask; until the last connection has ended if `None`.
    pub(crate) followers_wait: Option<u32>,
    /// Raised when they are to be waited for no longer.
    pub(crate) hurried: &'a AtomicBool,
    /// What they asked for.
    pub(crate) followers: &'a Followers,
    /// The participants' lines.
    pub(crate) lines: &'a [Arc<LineSlot>],
}

impl Watch<'_> {
    /// Whether someone asked to wait no longer.
    pub(crate) fn is_hurried(&self) -> bool {
        self.hurried.load(Ordering::SeqCst)
    }
}

/// Whether this many seconds have passed at this time, of a wait that began then, in nanoseconds of the clock. Without a number
/// of seconds they never have.
fn has_passed(seconds: Option<u32>, began: u64, now: u64) -> bool
    ensures { result ≡ has_passed seconds began now }
{
    match seconds {
        None => false,
        Some(seconds) => u64::from(seconds) * SECOND <= now.saturating_sub(began),
    }
}

/// Whether followers are waited for no longer: someone asked for that, or the time in which they may ask has passed.
pub(crate) fn is_enough(hurried: bool, seconds: Option<u32>, began: u64, now: u64) -> bool
    ensures { result ≡ is_enough hurried seconds began now }
{
    hurried || has_passed(seconds, began, now)
}
