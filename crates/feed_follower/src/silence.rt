//! Counts the looks at a follower's connection, by which a day is gone: it was closed, and nothing came since.
ghost use Rattle.std.specs.Prelude.{◌≡◌, ◌≤◌, ◌+◌, ◌↔◌, false, true, min, IsTrue};
ghost use Rattle.feed_follower.specs.declared.silence.TheConstants.{SILENT_MOST};

/// The day is gone after so many looks in a row at which the connection was closed and nothing had come since the look before.
const SILENT_MOST: u32 = 2;

/// How often the connection was seen closed since something came.
#[derive(Clone, Copy)]
pub(crate) struct Silence {
    looks: u32,
    ghost at_most: { looks ≤ SILENT_MOST },
}

impl Silence {
    /// The count before the first look.
    pub(crate) fn none() -> Silence
        ensures { result.looks ≡ 0 }
    {
        Silence { looks: 0 }
    }

    /// Notes that something came.
    pub(crate) fn broken(&mut self)
        ensures { self.new.looks ≡ 0 }
    {
        self.looks = 0;
    }

    /// Counts a look at the connection, and returns whether the day is gone.
    pub(crate) fn looked(&mut self, is_closed: bool) -> bool
        ensures open { is_closed ≡ false → self.new.looks ≡ 0 }
        ensures closed { is_closed ≡ true → self.new.looks ≡ min (self.old.looks + 1) SILENT_MOST }
        ensures gone { IsTrue result ↔ (SILENT_MOST ≤ self.new.looks) }
    {
        self.looks = if is_closed {
            (self.looks + 1).min(SILENT_MOST)
        } else {
            0
        };
        SILENT_MOST <= self.looks
    }
}
