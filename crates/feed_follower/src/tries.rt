//! Counts the tries to connect to a retransmission that can't be reached. The first try is made at once, and another one after
//! each pause, until the pauses have lasted as long as it may try.
ghost use Rattle.std.specs.Prelude.{◌≡◌, ◌-◌, ◌↔◌, ◌<◌, IsTrue, if◌then◌else◌, is_some, max};
ghost use Rattle.feed_follower.specs.Tries.{tries_within};

/// The pause before another try, in milliseconds.
pub(crate) const PAUSE: u64 = 100;

/// The number of pauses in a second.
const PAUSES: u64 = 10;

// So many pauses last a second.
const _: () = prove!(PAUSES * PAUSE == 1_000);

/// The tries to connect again, and how many of them are left since a connection served.
#[derive(Clone, Copy)]
pub(crate) struct Tries {
    /// How many there are in all.
    all: u64,
    /// How many are left.
    left: u64,
}

/// Returns how often to try to connect within so many seconds, or 1 without them.
pub(crate) fn tries_within(seconds: Option<u32>) -> u64
    ensures { result ≡ tries_within seconds }
{
    match seconds {
        Some(seconds) => u64::from(seconds) * PAUSES + 1,
        None => 1,
    }
}

impl Tries {
    /// The tries of a connection on which nothing was asked yet: all within these seconds are left, and none without them.
    pub(crate) fn within(seconds: Option<u32>) -> Tries
        ensures all { result.all ≡ tries_within seconds }
        ensures left { result.left ≡ if is_some seconds then tries_within seconds else 0 }
    {
        let all = tries_within(seconds);
        let left = if seconds.is_some() { all } else { 0 };
        Tries { all, left }
    }

    /// Returns how many are left.
    pub(crate) fn left(&self) -> u64
        ensures { result ≡ self.now.left }
    {
        self.left
    }

    /// Whether there is a pause before the next try. There is none before the first.
    pub(crate) fn is_paused(&self) -> bool
        ensures { IsTrue result ↔ (self.now.left < self.now.all) }
    {
        self.left < self.all
    }

    /// Uses one of the tries that are left.
    pub(crate) fn take(&mut self)
        ensures left { self.new.left ≡ self.old.left - 1 }
        ensures all { self.new.all ≡ self.old.all }
    {
        self.left = self.left.saturating_sub(1);
    }

    /// Notes that the connection serves, so all tries are left once it is lost.
    pub(crate) fn renew(&mut self)
        ensures { (self.new.left ≡ self.old.all) × (self.new.all ≡ self.old.all) }
    {
        self.left = self.all;
    }

    /// Allows one more try if none is left.
    pub(crate) fn one_more(&mut self)
        ensures left { self.new.left ≡ max self.old.left 1 }
        ensures all { self.new.all ≡ self.old.all }
    {
        self.left = self.left.max(1);
    }
}
