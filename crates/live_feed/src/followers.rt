//! Counts what each connection of the retransmission asked for and was given, for an operator.

use crate::clock::nanos_of;
use crate::follower_counts::{FollowerCounts, FollowerState, SeenFollowers};
use std::alloc::{AllocError, Global};
use std::rt::Clock;
use std::sync::atomic::{AtomicBool, AtomicU64, Ordering};
use std::sync::{Arc, Mutex, Wait};
use tape_frames::REQUEST_LENGTH;

/// How many nanoseconds a second has.
const SECOND: u64 = 1_000_000_000;

/// One connection that is counted. Its thread counts without a lock, and an operator reads what was counted so far.
#[derive(Drop)]
pub(crate) struct ServedFollower {
    /// In whole seconds after the day's start.
    since: u64,
    /// How many bytes of requests were read.
    asked: AtomicU64,
    /// How many answers were written whole.
    answered: AtomicU64,
    /// How many bytes of answers were written.
    bytes: AtomicU64,
    is_ended: AtomicBool,
    is_given_up: AtomicBool,
}

impl ServedFollower {
    /// A connection that is served since this many seconds after the day's start, and asked for nothing yet.
    fn new(since: u64) -> ServedFollower {
        ServedFollower {
            since,
            asked: AtomicU64::new(0),
            answered: AtomicU64::new(0),
            bytes: AtomicU64::new(0),
            is_ended: AtomicBool::new(false),
            is_given_up: AtomicBool::new(false),
        }
    }

    /// Counts bytes of requests that were read.
    pub(crate) fn count_asked(&self, bytes: usize) {
        self.asked.fetch_add(bytes as u64, Ordering::SeqCst);
    }

    /// Counts bytes of an answer that were written.
    pub(crate) fn count_bytes(&self, bytes: usize) {
        self.bytes.fetch_add(bytes as u64, Ordering::SeqCst);
    }

    /// Counts an answer that was written whole.
    pub(crate) fn count_answer(&self) {
        self.answered.fetch_add(1, Ordering::SeqCst);
    }

    /// Marks the connection as ended.
    pub(crate) fn end(&self) {
        self.is_ended.store(true, Ordering::SeqCst)
    }

    /// Marks the connection as given up if it is still served.
    fn give_up(&self) {
        if !self.is_ended.load(Ordering::SeqCst) {
            self.is_given_up.store(true, Ordering::SeqCst)
        }
    }

    /// Returns what was counted so far of the connection that came at this place, from 1.
    fn counts(&self, place: u64) -> FollowerCounts {
        let state = if self.is_given_up.load(Ordering::SeqCst) {
            FollowerState::GivenUp
        } else if self.is_ended.load(Ordering::SeqCst) {
            FollowerState::Ended
        } else {
            FollowerState::Served
        };
        FollowerCounts {
            place,
            since: self.since,
            asked: self.asked.load(Ordering::SeqCst) / REQUEST_LENGTH as u64,
            answered: self.answered.load(Ordering::SeqCst),
            bytes: self.bytes.load(Ordering::SeqCst),
            state,
        }
    }
}

/// The connections that came.
#[derive(Drop)]
struct Came {
    /// How many connections came, those that are not counted included.
    many: u32,
    /// Whether no connection is waited for any longer.
    is_given_up: bool,
    /// The connections that are counted, in the order in which they came.
    followers: Vec<Arc<ServedFollower>>,
}

impl Came {
    /// Returns what was counted of each connection so far.
    fn counts(&self, alloc: Global) -> Result<Vec<FollowerCounts>, AllocError> {
        let mut counts = Vec::with_capacity(alloc, self.followers.len())?;
        for (at, follower) in self.followers.iter().enumerate() {
            counts.push(follower.counts(at as u64 + 1))?;
        }
        Ok(counts)
    }
}

/// The connections of a day's retransmission in the order in which they came, those that have ended included.
#[derive(Drop)]
pub(crate) struct Followers {
    alloc: Global,
    /// How many connections are served.
    serves: u16,
    /// When the day began, in nanoseconds of the clock.
    began: u64,
    came: Mutex<Came>,
}

impl Followers {
    /// No connection of this many that are served has come yet, and the day begins at this time. It allocates nothing.
    pub(crate) fn new<R: Clock>(rt: &R, alloc: Global, serves: u16) -> Followers {
        Followers {
            alloc,
            serves,
            began: nanos_of(rt),
            came: Mutex::new(Came {
                many: 0,
                is_given_up: false,
                followers: Vec::new(alloc),
            }),
        }
    }

    /// Adds a connection that came, which is counted from then on. If memory runs out it counts as having come and is served
    /// all the same, but what it asks for is not counted.
    pub(crate) fn enter<R: Wait + Clock>(&self, rt: &R) -> Option<Arc<ServedFollower>> {
        let since = nanos_of(rt).saturating_sub(self.began) / SECOND;
        let follower = Arc::new(self.alloc, ServedFollower::new(since));
        let mut came = self.came.lock(rt);
        came.many = came.many.saturating_add(1);
        let follower = follower.ok()?;
        let kept = Arc::try_clone(&follower).ok()?;
        came.followers.push(kept).ok()?;
        Some(follower)
    }

    /// Gives up the connections that are still served, and waits no longer for those that did not come.
    pub(crate) fn give_up<R: Wait>(&self, rt: &R) {
        let mut came = self.came.lock(rt);
        came.is_given_up = true;
        for follower in &came.followers {
            follower.give_up();
        }
    }

    /// Returns what is known of the day's followers. No connection enters meanwhile, and serving goes on.
    pub(crate) fn seen<R: Wait>(&self, rt: &R) -> Result<SeenFollowers, AllocError> {
        let came = self.came.lock(rt);
        Ok(SeenFollowers {
            serves: self.serves,
            came: came.many,
            is_given_up: came.is_given_up,
            counts: came.counts(self.alloc)?,
        })
    }
}
