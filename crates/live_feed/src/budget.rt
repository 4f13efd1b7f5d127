//! The send budget: how many packets may still be sent in the current millisecond, and for how long to rest after them.
ghost use Rattle.std.specs.Prelude.{◌≡◌, ◌<◌, ◌+◌, ◌⊎◌, false};
ghost use Rattle.live_feed.specs.Budgets.{BudgetState, budget_after, budget_at, is_over, rest_after};
ghost use Rattle.live_feed.specs.declared.budget.TheConstants.{MILLISECOND};
ghost use Rattle.live_feed.specs.declared.pace.TheConstants.{PACE_FIRST, PACE_MOST};

use crate::pace::Pace;
use std::marker::Model;

/// A millisecond, in nanoseconds of the clock.
const MILLISECOND: u64 = 1_000_000;

/// A millisecond of the clock, in which no more packets are sent than its pace says.
#[derive(Clone, Copy)]
pub(crate) struct Budget {
    /// How many packets are sent in a millisecond.
    pace: Pace,
    /// When the millisecond began, in nanoseconds of the clock.
    began: u64,
    /// How many packets were sent in it.
    packets: u32,
    /// Whether something was asked for in it.
    was_asked: bool,
}

impl Model for Budget {
    ghost Value = { BudgetState };

    ghost view = { λ b. record { pace = b.pace; began = b.began; packets = b.packets; was_asked = b.was_asked } };

    ghost invariant = { λ b. b.packets < b.pace.packets };

    ghost inverse = { λ s. record { pace = s.pace; began = s.began; packets = s.packets; was_asked = s.was_asked } };
}

impl Budget {
    /// The budget of a millisecond that begins with the clock, at the first pace.
    pub(crate) fn first() -> Budget
        ensures { result ≡ record {
          pace = record { packets = PACE_FIRST; ceiling = PACE_MOST; calm = 0 };
          began = 0;
          packets = 0;
          was_asked = false;
        } }
    {
        Budget {
            pace: Pace::first(),
            began: 0,
            packets: 0,
            was_asked: false,
        }
    }

    /// Whether the millisecond is over at this time, as it also is if the clock went back.
    fn is_over(self, now: u64) -> bool
        ensures { result ≡ is_over self.began now }
    {
        now < self.began || MILLISECOND <= now - self.began
    }

    /// The budget at this time: of the same millisecond, or of one that begins at this time, whose pace is lower if something
    /// was asked for meanwhile. A budget that was not spent is no sign that more would be taken, so the pace never rises here.
    pub(crate) fn at(self, now: u64, was_asked: bool) -> Budget
        ensures at { result ≡ budget_at now was_asked self }
        ensures current { is_over result.began now ≡ false }
    {
        let was_asked = self.was_asked || was_asked;
        if !self.is_over(now) {
            return Budget {
                pace: self.pace,
                began: self.began,
                packets: self.packets,
                was_asked,
            };
        }
        Budget {
            pace: if was_asked {
                self.pace.after(true)
            } else {
                self.pace
            },
            began: now,
            packets: 0,
            was_asked: false,
        }
    }

    /// The budget after a packet that was sent at this time, within the millisecond, and for how many nanoseconds to rest
    /// before the next one: for what is left of the millisecond if its budget is spent, and else 0.
    pub(crate) fn after_packet(self, now: u64) -> (Budget, u64)
        requires { is_over self.began now ≡ false }
        ensures budget { result.0 ≡ budget_after self }
        ensures rest { result.1 ≡ rest_after now self }
        // The packet is counted and there is no rest, or the budget is spent and the rest lasts to the end of its millisecond.
        ensures spent { ((result.0.packets ≡ self.packets + 1) × (result.1 ≡ 0))
            ⊎ ((result.0.packets ≡ 0) × (now + result.1 ≡ self.began + MILLISECOND)) }
    {
        if self.packets + 1 < self.pace.packets() {
            let budget = Budget {
                pace: self.pace,
                began: self.began,
                packets: self.packets + 1,
                was_asked: self.was_asked,
            };
            return (budget, 0);
        }
        let budget = Budget {
            pace: self.pace.after(self.was_asked),
            began: self.began.saturating_add(MILLISECOND),
            packets: 0,
            was_asked: false,
        };
        (budget, MILLISECOND - (now - self.began))
    }
}
