//! How many packets the sender sends in a millisecond.
ghost use Rattle.std.specs.Prelude.{◌≡◌, ◌≤◌};
ghost use Rattle.live_feed.specs.Paces.{PaceState, ceiling_after, pace_after};
ghost use Rattle.live_feed.specs.declared.pace.TheConstants.{CEILING_LEAST, PACE_FIRST, PACE_LEAST, PACE_MOST};

use std::marker::Model;

/// The least pace: a follower that is slow, or whose buffer is small, loses nothing at it.
const PACE_LEAST: u32 = 16;

/// The pace at which a sender starts.
const PACE_FIRST: u32 = 64;

/// The greatest pace: a socket's default buffer takes more packets at once, however long they are.
const PACE_MOST: u32 = 64;

/// How many packets more are sent in the next millisecond if nothing was asked for.
const PACE_STEP: u32 = 2;

/// The least value of the ceiling: a pace below it is not why packets are lost.
const CEILING_LEAST: u32 = 32;

/// How many rests in a row at which nothing was asked for make a calm: requests that are nearer to each other are of one
/// overrun.
const CALM_LEAST: u32 = 16;

/// After how many such rests the ceiling rises by a packet.
const CALM_RESTS: u32 = 64;

/// How many packets are sent in a millisecond, and how far that may rise.
#[derive(Clone, Copy)]
pub(crate) struct Pace {
    /// How many packets are sent in a millisecond.
    packets: u32,
    /// How far the pace may rise, `CEILING_LEAST` at least: three quarters of the last pace that was too fast, and some packets
    /// more.
    ceiling: u32,
    /// For how many rests nothing was asked for.
    calm: u32,
}

impl Model for Pace {
    ghost Value = { PaceState };

    ghost view = { λ p. record { packets = p.packets; ceiling = p.ceiling; calm = p.calm } };

    ghost invariant = { λ p. (PACE_LEAST ≤ p.packets) × (p.packets ≤ p.ceiling) × (CEILING_LEAST ≤ p.ceiling) × (p.ceiling ≤ PACE_MOST) };

    ghost inverse = { λ s. record { packets = s.packets; ceiling = s.ceiling; calm = s.calm } };
}

impl Pace {
    /// The first pace, which may rise to the greatest.
    pub(crate) fn first() -> Pace
        ensures { result ≡ record { packets = PACE_FIRST; ceiling = PACE_MOST; calm = 0 } }
    {
        Pace {
            packets: PACE_FIRST,
            ceiling: PACE_MOST,
            calm: 0,
        }
    }

    /// The next ceiling. A pace at which something was asked for after a calm was too fast.
    fn ceiling_after(self, was_asked: bool) -> u32
        ensures { result ≡ ceiling_after was_asked self }
    {
        if !was_asked && self.calm % CALM_RESTS == CALM_RESTS - 1 {
            (self.ceiling + 1).min(PACE_MOST)
        } else if was_asked && CALM_LEAST <= self.calm {
            (self.packets - self.packets / 4).max(CEILING_LEAST)
        } else {
            self.ceiling
        }
    }

    /// The next pace: half of it if something was asked for, else a step more, up to the ceiling.
    pub(crate) fn after(self, was_asked: bool) -> Pace
        ensures after { result ≡ pace_after was_asked self }
        ensures some { PACE_LEAST ≤ result.packets }
    {
        let ceiling = self.ceiling_after(was_asked);
        let packets = if was_asked {
            (self.packets / 2).max(PACE_LEAST)
        } else {
            (self.packets + PACE_STEP).min(ceiling)
        };
        Pace {
            packets,
            ceiling,
            calm: if was_asked {
                0
            } else {
                self.calm.saturating_add(1)
            },
        }
    }

    /// How many packets are sent in a millisecond.
    pub(crate) fn packets(self) -> u32
        ensures { result ≡ self.packets }
    {
        self.packets
    }
}
