//! The outcome for each entry of a packet, and the counts of these outcomes.
ghost use Rattle.std.specs.Prelude.{◌≡◌, ◌+◌, ◌<◌, ◌^◌};
ghost use Rattle.arbitration.specs.Counts.{taken_with};

/// The outcome for one entry of a packet.
#[derive(Clone, Copy, Debug, PartialEq, Eq)]
pub(crate) enum Placing {
    /// Its slot was empty, and it was put there.
    Fresh,
    /// It had been taken out, or its slot already held it.
    Repeated,
    /// Its number is above the last slot's, so it was dropped.
    Beyond,
}

/// How many entries of a packet were new, already known, and too far ahead. The three add up to all its entries.
#[derive(Clone, Copy, Debug, PartialEq, Eq)]
pub struct Taken {
    /// Entries that were put into the window.
    pub fresh: u32,
    /// Entries that were already in the window or had been taken out of it.
    pub repeated: u32,
    /// Entries with a number more than `REACH` above the base, which the window does not keep.
    pub beyond: u32,
}

impl Taken {
    /// Counts one more entry.
    pub(crate) fn count(&mut self, placing: Placing)
        requires { self.old.fresh + self.old.repeated + self.old.beyond < 2 ^ 31 }
        ensures { self.new ≡ taken_with self.old placing }
    {
        match placing {
            Placing::Fresh => self.fresh += 1,
            Placing::Repeated => self.repeated += 1,
            Placing::Beyond => self.beyond += 1,
        }
    }
}
