//! Counts faults by kind.
ghost use Rattle.std.specs.Prelude.{◌≡◌, ◌+◌, ◌<◌, ◌^◌, ◌++◌, ◌∷◌, ℕ, List, [], length};
ghost use Rattle.csv_messages.specs.declared.table_fault.TableFault.{TableFault};
ghost use Rattle.csv_messages.specs.declared.table_fault.TableFault.TheVariants.{Row};
ghost use Rattle.csv_days.specs.Checks.{AreCounts, counted_of};

use crate::fault_kind::{FAULT_KINDS, FaultKind};
use csv_messages::RowFault;

/// How many faults there are of each kind.
#[derive(Clone, Copy, Debug, PartialEq, Eq)]
pub struct FaultCounts {
    counts: [u64; FAULT_KINDS],
}

impl FaultCounts {
    /// Creates counts of no fault.
    pub fn none() -> FaultCounts
        ensures { AreCounts [] result }
    {
        FaultCounts {
            counts: [0; FAULT_KINDS],
        }
    }

    /// Returns how many faults of a kind there are.
    pub fn of(&self, kind: FaultKind) -> u64
        ensures { result ≡ counted_of self.now kind }
    {
        self.counts[kind.place()]
    }

    /// Counts one row's fault.
    pub fn add(&mut self, fault: &RowFault)
        ensures { (faults : List TableFault) (number : ℕ) → length faults + 1 < 2 ^ 64 → AreCounts faults self.old
            → AreCounts (faults ++ Row number fault.now ∷ []) self.new }
    {
        let place = FaultKind::of(fault).place();
        self.counts[place] = self.counts[place].saturating_add(1);
    }
}
