//! Keeps the numbers on which packets did not agree, for which the retransmission is asked.
//!
//! It keeps two ranges of numbers, however many packets differ: those that are still to be asked for, and the last range of
//! which the retransmission has what is known.
ghost use Rattle.std.specs.Prelude.{◌≡◌, ◌↔◌, ◌+◌, ◌-◌, ◌<◌, ◌≤◌, ◌⊎◌, ℕ, false, true, IsTrue, MatchOption};
ghost use Rattle.tape_types.specs.Ranges.{TAPE_MOST};
ghost use Rattle.tape_frames.specs.Limits.{IsSpan};
ghost use Rattle.feed_follower.specs.Conflicts.{AsksFor, IsIn};

use arbitration::ASKED_MOST;
use tape_frames::{Request, Span};

/// A range of numbers, from `from` to just before `before`; empty unless `before` is above `from`.
#[derive(Clone, Copy)]
pub(crate) struct Numbers {
    pub(crate) from: u32,
    pub(crate) before: u32,
}

/// The numbers on which packets did not agree.
#[derive(Clone, Copy)]
pub(crate) struct Conflicts {
    /// Whether conflicts are settled. If not, none is kept.
    are_settled: bool,
    /// The numbers that the retransmission is to be asked for.
    wanted: Numbers,
    /// Numbers that it was asked for and of which it has what is known.
    found: Numbers,
}

/// Returns a count as a request has it.
fn span(count: u32) -> Span
    requires { IsSpan count }
    ensures { result ≡ count }
{
    Span::try_new(count as u16).unwrap()
}

impl Numbers {
    /// No numbers.
    fn none() -> Numbers
        ensures { result ≡ record { from = 0; before = 0 } }
    {
        Numbers { from: 0, before: 0 }
    }

    /// Returns how many numbers there are.
    pub(crate) fn len(&self) -> u32
        ensures { result ≡ self.now.before - self.now.from }
    {
        self.before.saturating_sub(self.from)
    }

    /// Whether a number is in the range.
    fn has(&self, number: u32) -> bool
        ensures { IsTrue result ↔ IsIn number self.now }
    {
        self.from <= number && number < self.before
    }

    /// Returns the least range with these numbers and this one.
    fn with(&self, number: u32) -> Numbers
        requires { number ≤ TAPE_MOST + 1 }
        ensures has { IsIn number result }
        ensures kept { (n : ℕ) → IsIn n self.now → IsIn n result }
        ensures between { (n : ℕ) → IsIn n result → IsIn n self.now ⊎ (n ≡ number) ⊎ (self.now.from < self.now.before) }
    {
        if self.from < self.before {
            Numbers {
                from: self.from.min(number),
                before: self.before.max(number + 1),
            }
        } else {
            Numbers {
                from: number,
                before: number + 1,
            }
        }
    }

    /// Returns these numbers and others if no number lies between them, otherwise the others.
    fn joined(&self, others: Numbers) -> Numbers
        ensures others { (n : ℕ) → IsIn n others → IsIn n result }
        ensures either { (n : ℕ) → IsIn n result → IsIn n self.now ⊎ IsIn n others }
    {
        let is_apart = others.before < self.from || self.before < others.from;
        if is_apart || self.before <= self.from || others.before <= others.from {
            return others;
        }
        Numbers {
            from: self.from.min(others.from),
            before: self.before.max(others.before),
        }
    }
}

impl Conflicts {
    /// No conflict is known.
    pub(crate) fn none(are_settled: bool) -> Conflicts
        ensures settled { result.are_settled ≡ are_settled }
        ensures wanted { result.wanted ≡ record { from = 0; before = 0 } }
        ensures found { result.found ≡ record { from = 0; before = 0 } }
    {
        Conflicts {
            are_settled,
            wanted: Numbers::none(),
            found: Numbers::none(),
        }
    }

    /// Whether conflicts are settled.
    pub(crate) fn are_settled(&self) -> bool
        ensures { result ≡ self.now.are_settled }
    {
        self.are_settled
    }

    /// Returns how many numbers are to be asked for.
    pub(crate) fn len(&self) -> u32
        ensures { result ≡ self.now.wanted.before - self.now.wanted.from }
    {
        self.wanted.len()
    }

    /// Notes a number on which packets did not agree: it is to be asked for, unless the retransmission was found to have what
    /// is known.
    pub(crate) fn meet(&mut self, number: u32)
        requires { number ≤ TAPE_MOST + 1 }
        ensures met { self.old.are_settled ≡ true → IsIn number self.new.wanted ⊎ IsIn number self.new.found }
        ensures kept { (n : ℕ) → IsIn n self.old.wanted → IsIn n self.new.wanted }
        ensures found { self.new.found ≡ self.old.found }
        ensures mode { self.new.are_settled ≡ self.old.are_settled }
        ensures unsettled { self.old.are_settled ≡ false → self.new ≡ self.old }
    {
        if self.are_settled && !self.found.has(number) {
            self.wanted = self.wanted.with(number);
        }
    }

    /// Returns a request for the first numbers that are to be asked for, at most `ASKED_MOST`, or `None` if there are none.
    pub(crate) fn request(&self, session: u64) -> Option<Request>
        ensures { MatchOption result (self.now.wanted.before ≤ self.now.wanted.from)
            (λ request. (request.session ≡ session) × AsksFor self.now.wanted request) }
    {
        let count = self.len().min(ASKED_MOST);
        if count == 0 {
            return None;
        }
        Some(Request {
            session,
            from: self.wanted.from,
            count: span(count),
        })
    }

    /// Notes numbers of which the retransmission has what is known. The numbers to ask for begin after the last one found if
    /// all below it were found.
    pub(crate) fn find(&mut self, numbers: Numbers)
        ensures answered { (n : ℕ) → IsIn n self.old.wanted → IsIn n self.new.wanted ⊎ IsIn n self.new.found }
        ensures found { (n : ℕ) → IsIn n self.new.found → IsIn n self.old.found ⊎ IsIn n numbers }
        ensures fewer { (n : ℕ) → IsIn n self.new.wanted → IsIn n self.old.wanted }
        ensures mode { self.new.are_settled ≡ self.old.are_settled }
    {
        self.found = self.found.joined(numbers);
        if self.found.has(self.wanted.from) {
            self.wanted.from = self.found.before;
        }
    }
}
