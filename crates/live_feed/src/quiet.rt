//! Decides when a beat is due, by how long nothing was sent.
ghost use Rattle.std.specs.Prelude.{◌≡◌, ◌+◌, ◌-◌, ◌^◌, min};
ghost use Rattle.live_feed.specs.Quiets.{pause_before};

/// How long nothing was sent when the first beat is sent, in nanoseconds of the clock.
const FIRST_PAUSE: u64 = 20_000_000;

/// How long nothing was sent since the first beat when the second is sent.
const SECOND_PAUSE: u64 = 200_000_000;

/// How long nothing was sent since the beat before when a later one is sent.
const LATER_PAUSE: u64 = 1_000_000_000;

/// Since when nothing was sent, and how many beats in a row were sent last.
#[derive(Clone, Copy)]
pub(crate) struct Quiet {
    since: u64,
    beats: u32,
}

impl Quiet {
    /// Data was sent at this time.
    pub(crate) fn after_data(now: u64) -> Quiet
        ensures { result ≡ record { since = now; beats = 0 } }
    {
        Quiet {
            since: now,
            beats: 0,
        }
    }

    /// A beat was sent at this time.
    pub(crate) fn after_beat(self, now: u64) -> Quiet
        ensures { result ≡ record { since = now; beats = min (self.beats + 1) (2 ^ 32 - 1) } }
    {
        Quiet {
            since: now,
            beats: self.beats.saturating_add(1),
        }
    }

    /// How long after what was sent last a beat is sent.
    fn pause(self) -> u64
        ensures { result ≡ pause_before self.beats }
    {
        match self.beats {
            0 => FIRST_PAUSE,
            1 => SECOND_PAUSE,
            _ => LATER_PAUSE,
        }
    }

    /// For how many nanoseconds after this time no beat is due; 0 if one is due.
    pub(crate) fn left(self, now: u64) -> u64
        ensures { result ≡ pause_before self.beats - (now - self.since) }
    {
        self.pause().saturating_sub(now.saturating_sub(self.since))
    }
}
