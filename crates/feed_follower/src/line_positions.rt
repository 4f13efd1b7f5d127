//! Keeps how far the lines of a follower have come, so that what one of them lost is not asked for while the other may still
//! bring it.
ghost use Rattle.std.specs.Prelude.{◌≡◌, ◌↔◌, ◌≤◌, ◌+◌, ◌==◌, min, if◌then◌else◌, None, IsTrue};
ghost use Rattle.feed_follower.specs.LinePositions.{IsAwaited, IsBehind, IsToWait, once_brought, once_noted};
ghost use Rattle.feed_follower.specs.declared.line_positions.TheConstants.{TURNS_MOST};

use arbitration::{Line, REACH};

/// For how many turns the follower waits for a line that is behind the other.
const TURNS_MOST: u32 = 5;

/// How many numbers are announced above those held once the follower waits for no line: half of what the window keeps, so that
/// what comes while a request is answered fits too.
const AHEAD_MOST: usize = REACH / 2;

/// How far a line has come.
#[derive(Clone, Copy)]
pub(crate) struct LinePosition {
    /// The greatest number that it brought, or `None` if it brought none.
    last: Option<u32>,
    /// The number that it has to reach before the follower waits for it again: one that was asked for because the line was
    /// late. 0 before there was one.
    awaited_from: u32,
}

/// How far lines A and B have come, and what is waited for.
#[derive(Clone, Copy)]
pub(crate) struct LinePositions {
    a: LinePosition,
    b: LinePosition,
    /// The number that is waited for, or was the last one; 0 before there is one.
    awaited: u32,
    /// For how many turns it was waited for.
    turns: u32,
}

impl LinePosition {
    /// A line that brought nothing.
    fn nothing() -> LinePosition
        ensures last { result.last ≡ None }
        ensures awaited_from { result.awaited_from ≡ 0 }
    {
        LinePosition {
            last: None,
            awaited_from: 0,
        }
    }

    /// Notes a number that the line brought.
    fn bring(&mut self, number: u32)
        ensures { self.new ≡ once_brought number self.old }
    {
        self.last = Some(self.last.unwrap_or(0).max(number));
    }

    /// Whether the line has brought something, but has not reached this number.
    fn is_behind(&self, number: u32) -> bool
        ensures { IsTrue result ↔ IsBehind number self.now }
    {
        match self.last {
            Some(last) => last < number,
            None => false,
        }
    }

    /// Whether this number is awaited from the line.
    fn is_awaited(&self, number: u32) -> bool
        ensures { IsTrue result ↔ IsAwaited number self.now }
    {
        match self.last {
            Some(last) => self.awaited_from <= last && last < number,
            None => false,
        }
    }

    /// Notes that this number was asked for. If the line is behind it, nothing is awaited from the line before it reaches it.
    fn ask(&mut self, number: u32)
        ensures late { IsBehind number self.old → self.new ≡ record self.old { awaited_from = number } }
        ensures other { ¬ (IsBehind number self.old) → self.new ≡ self.old }
    {
        if self.is_behind(number) {
            self.awaited_from = number;
        }
    }
}

impl LinePositions {
    /// Neither line has brought anything.
    pub(crate) fn nothing() -> LinePositions
        ensures lines { (result.a.last ≡ None) × (result.b.last ≡ None) }
        ensures awaited_from { (result.a.awaited_from ≡ 0) × (result.b.awaited_from ≡ 0) }
        ensures awaited { result.awaited ≡ 0 }
    {
        LinePositions {
            a: LinePosition::nothing(),
            b: LinePosition::nothing(),
            awaited: 0,
            turns: 0,
        }
    }

    /// Notes the number in the header of a line's packet. The retransmission is no line to wait for.
    pub(crate) fn note(&mut self, line: Line, number: u32)
        ensures { self.new ≡ once_noted line number self.old }
    {
        match line {
            Line::A => self.a.bring(number),
            Line::B => self.b.bring(number),
            Line::R => {}
        }
    }

    /// Whether this number was waited for long enough.
    fn is_over(&self, number: u32) -> bool
        ensures { IsTrue result ↔ ((self.now.awaited ≡ number) × (TURNS_MOST ≤ self.now.turns)) }
    {
        self.awaited == number && TURNS_MOST <= self.turns
    }

    /// Whether to wait for this number, the least that is missing, if `ahead` numbers are announced above those held: a line
    /// may still bring it, it was not waited for long enough, and what comes meanwhile fits into the window.
    pub(crate) fn may_bring(&self, number: u32, ahead: usize) -> bool
        ensures { IsTrue result ↔ IsToWait number ahead self.now }
    {
        ahead < AHEAD_MOST
            && !self.is_over(number)
            && (self.a.is_awaited(number) || self.b.is_awaited(number))
    }

    /// Counts a turn of waiting for this number.
    pub(crate) fn waited(&mut self, number: u32)
        ensures awaited { self.new.awaited ≡ number }
        ensures turns { self.new.turns ≡ (if self.old.awaited == number then min (self.old.turns + 1) TURNS_MOST else 1) }
        ensures lines { (self.new.a ≡ self.old.a) × (self.new.b ≡ self.old.b) }
    {
        let before = if self.awaited == number {
            self.turns
        } else {
            0
        };
        self.awaited = number;
        self.turns = before.saturating_add(1).min(TURNS_MOST);
    }

    /// Notes that this number was asked for: a line that is behind it was waited for in vain, or is too late to be waited for.
    /// So the follower does not wait for that line again before it has caught up.
    pub(crate) fn asked(&mut self, number: u32)
        ensures late_a { IsBehind number self.old.a → self.new.a ≡ record self.old.a { awaited_from = number } }
        ensures other_a { ¬ (IsBehind number self.old.a) → self.new.a ≡ self.old.a }
        ensures late_b { IsBehind number self.old.b → self.new.b ≡ record self.old.b { awaited_from = number } }
        ensures other_b { ¬ (IsBehind number self.old.b) → self.new.b ≡ self.old.b }
        ensures waited { (self.new.awaited ≡ self.old.awaited) × (self.new.turns ≡ self.old.turns) }
    {
        self.a.ask(number);
        self.b.ask(number);
    }
}
