//! Shares a follower among its threads, and keeps what its lines brought while one of them had it.
//!
//! Nothing may stay kept while no thread has the follower. So a thread that had it, or kept something for it, owes a look at
//! what is kept after that: an `Owed`, which can't be dropped.
ghost use Rattle.std.specs.Prelude.{◌≡◌, []};
ghost use Rattle.feed_follower.specs.declared.follower.NextStep.TheVariants.{End};

use crate::EntrySink;
use crate::follower::{Follower, NextStep};
use crate::held_name::HeldName;
use crate::inbox::{Datagram, Inbox};
use arbitration::Line;
use std::alloc::Global;
use std::sync::{Mutex, MutexGuard, Wait};

/// The follower, which one thread has at a time, and what is kept for it.
#[derive(Drop)]
pub(crate) struct SharedFollower<N: HeldName, S: EntrySink> {
    /// Where memory comes from.
    alloc: Global,
    follower: Mutex<Follower<N, S>>,
    kept: Mutex<Inbox>,
}

/// The look at what is kept that a thread owes after it had the follower, or kept something for it. Nothing outside this module
/// makes one.
pub(crate) struct Owed {
    marker: (),
}

/// A thread's turn with the follower. Only `end` ends it, since what the thread owes can't be dropped.
pub(crate) struct Turn<'a, N: HeldName, S: EntrySink> {
    pub(crate) follower: MutexGuard<'a, Follower<N, S>>,
    owed: Owed,
}

impl Owed {
    /// The look that a thread owes.
    fn new() -> Owed {
        Owed { marker: () }
    }

    /// Settles the debt, since nothing is kept.
    fn see_nothing(self, kept: &Inbox)
        requires { kept.now.datagrams.items ≡ [] }
    {
        // For the proof alone: only clauses speak of it.
        let _ = kept;
        let Owed { marker: _ } = self;
    }

    /// Settles the debt, since the run is over and what is kept is not delivered any more.
    pub(crate) fn see_end(self, next: &NextStep)
        requires { next.now ≡ End }
    {
        // For the proof alone: only clauses speak of it.
        let _ = next;
        let Owed { marker: _ } = self;
    }
}

impl<'a, N: HeldName, S: EntrySink> Turn<'a, N, S> {
    /// The turn of a thread that owes a look and tried to get the follower. `None` if another thread has it, which owes the
    /// same.
    fn begin(owed: Owed, tried: Option<MutexGuard<'a, Follower<N, S>>>) -> Option<Turn<'a, N, S>> {
        match tried {
            Some(follower) => Some(Turn { follower, owed }),
            None => {
                let Owed { marker: _ } = owed;
                None
            }
        }
    }

    /// Lets go of the follower, and returns what the thread owes.
    pub(crate) fn end(self) -> Owed {
        let Turn { follower, owed } = self;
        drop(follower);
        owed
    }
}

impl<N: HeldName, S: EntrySink> SharedFollower<N, S> {
    /// A follower for which nothing is kept yet.
    pub(crate) fn new(
        alloc: Global,
        follower: Follower<N, S>,
        kept: Inbox,
    ) -> SharedFollower<N, S> {
        SharedFollower {
            alloc,
            follower: Mutex::new(follower),
            kept: Mutex::new(kept),
        }
    }

    /// Waits for a turn.
    pub(crate) fn turn<R: Wait>(&self, rt: &R) -> Turn<'_, N, S> {
        Turn {
            follower: self.follower.lock(rt),
            owed: Owed::new(),
        }
    }

    /// A turn, or `None` if another thread has one.
    pub(crate) fn turn_now(&self) -> Option<Turn<'_, N, S>> {
        Turn::begin(Owed::new(), self.follower.try_lock())
    }

    /// A turn of a thread that owes a look, or `None` if nothing is kept or another thread has a turn.
    pub(crate) fn turn_owed<R: Wait>(&self, rt: &R, owed: Owed) -> Option<Turn<'_, N, S>> {
        let kept = self.kept.lock(rt);
        if kept.is_empty() {
            owed.see_nothing(&kept);
            return None;
        }
        drop(kept);
        Turn::begin(owed, self.follower.try_lock())
    }

    /// Keeps what a line brought. `None` if there is no room or no memory.
    pub(crate) fn keep<R: Wait>(&self, rt: &R, line: Line, bytes: &[u8]) -> Option<Owed> {
        let datagram = Datagram::new(self.alloc, line, bytes).ok()?;
        match self.kept.lock(rt).keep(datagram) {
            Ok(()) => Some(Owed::new()),
            Err(_) => None,
        }
    }

    /// Removes and returns the datagram that was kept first.
    pub(crate) fn next_kept<R: Wait>(&self, rt: &R) -> Option<Datagram> {
        self.kept.lock(rt).next()
    }

    /// Returns the follower, once no thread has it any more.
    pub(crate) fn into_follower(self) -> Follower<N, S> {
        self.follower.into_inner()
    }
}
