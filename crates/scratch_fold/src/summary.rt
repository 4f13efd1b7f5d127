//! The summary of a day, and the effect of one report on it: each added report updates the figures in place.

ghost use Rattle.tape_types.specs.Ranges.{SIZE_MOST};

use sale_matrix::LastRule;
use tape_types::{Participant, Price, Size, TapeNumber};

/// A report that a summary names.
#[derive(Clone, Copy, Debug, PartialEq, Eq)]
pub struct Mark {
    /// The report's price, in ten-thousandths of a dollar.
    pub price: Price,
    /// The participant that reported it.
    pub who: Participant,
    /// The tape number of the report's first admission.
    pub place: TapeNumber,
}

/// The figures of a day, over the reports that stand, in the order of their places.
#[derive(Clone, Copy, Debug, PartialEq, Eq)]
pub struct Summary {
    /// The report that set the first last (the open).
    pub opening: Option<Mark>,
    /// The highest of the reports that count for it, the earliest among equals.
    pub high: Option<Mark>,
    /// The lowest of the reports that count for it, the earliest among equals.
    pub low: Option<Mark>,
    /// The report that set the last by its rule.
    pub last: Option<Mark>,
    // The number of trades comes before the volume, which is thus aligned to eight bytes without padding.
    /// The number of reports that stand, whether or not they change a figure.
    pub trades: u32,
    /// The shares of the reports whose volume counts.
    pub volume: u64,
}

/// The effect of one report on a summary: its figures, and the cells of its sale condition in the summary's columns.
#[derive(Clone, Copy, Debug, PartialEq, Eq)]
pub struct Effect {
    /// Its price, in ten-thousandths of a dollar.
    pub price: Price,
    /// Its number of shares.
    pub size: Size,
    /// The participant that reported it.
    pub who: Participant,
    /// Whether it may become the high and the low.
    pub high_low: bool,
    /// When it becomes the last.
    pub last: LastRule,
    /// Whether its shares count.
    pub volume: bool,
}

impl Effect {
    ghost use Rattle.std.specs.Prelude.{◌≡◌, ◌≤◌, ◌&&◌, Some, if◌then◌else◌};
    ghost use Rattle.scratch_fold.specs.Fold.{becomes_last, is_higher, is_lower, mark_of};

    /// Makes it the report of a figure, if it counts there. The figure is written in place, and only if it changes, since most
    /// reports change few of them.
    fn mark_where(&self, counts: bool, place: TapeNumber, figure: &mut Option<Mark>)
        ensures { figure.new ≡ (if counts then Some (mark_of (place, self.now)) else figure.old) }
    {
        if counts {
            *figure = Some(Mark {
                price: self.price,
                place,
                who: self.who,
            });
        }
    }

    /// Whether it becomes the last, by its rule and the last so far.
    fn becomes_last(&self, last: Option<Mark>) -> bool
        ensures { result ≡ becomes_last self.now.last self.now.who last }
    {
        match last {
            None => self.last != LastRule::Never,
            // Both are evaluated, since a branch on the rule would be unpredictable.
            Some(mark) => {
                (self.last == LastRule::Always)
                    | ((self.last == LastRule::SameMarket) & (mark.who == self.who))
            }
        }
    }

    /// Whether it becomes the high: strictly above the one so far, or the first.
    fn is_higher(&self, high: Option<Mark>) -> bool
        ensures { result ≡ (self.now.high_low && is_higher self.now.price high) }
    {
        self.high_low
            & match high {
                Some(mark) => self.price > mark.price,
                None => true,
            }
    }

    /// Whether it becomes the low: strictly below the one so far, or the first.
    fn is_lower(&self, low: Option<Mark>) -> bool
        ensures { result ≡ (self.now.high_low && is_lower self.now.price low) }
    {
        self.high_low
            & match low {
                Some(mark) => self.price < mark.price,
                None => true,
            }
    }

    /// The number of its shares that count.
    fn counted(&self) -> u64
        ensures counted { result ≡ (if self.now.volume then self.now.size else 0) }
        ensures few { result ≤ SIZE_MOST }
    {
        if self.volume {
            u64::from(self.size.value())
        } else {
            0
        }
    }
}

impl Summary {
    ghost use Rattle.std.specs.Prelude.{◌≡◌, ◌+◌, ◌≤◌, ◌<◌, ◌^◌};
    ghost use Rattle.scratch_fold.specs.Fold.{step, empty_summary};

    /// The summary of no report.
    pub fn empty() -> Summary
        ensures empty { result ≡ empty_summary }
    {
        Summary {
            opening: None,
            high: None,
            low: None,
            last: None,
            volume: 0,
            trades: 0,
        }
    }

    /// Adds one more report, at a place after all those before it. The resulting volume and number of trades must fit.
    pub fn add(&mut self, place: TapeNumber, effect: &Effect)
        requires volume { (step self.old (place, effect.now)).volume < 2 ^ 64 }
        requires trades { self.old.trades + 1 < 2 ^ 32 }
        ensures step { self.new ≡ step self.old (place, effect.now) }
        ensures volume { self.new.volume ≤ self.old.volume + SIZE_MOST }
    {
        let is_last = effect.becomes_last(self.last);
        let is_first = is_last && self.last.is_none();
        let is_higher = effect.is_higher(self.high);
        let is_lower = effect.is_lower(self.low);
        effect.mark_where(is_first, place, &mut self.opening);
        effect.mark_where(is_higher, place, &mut self.high);
        effect.mark_where(is_lower, place, &mut self.low);
        effect.mark_where(is_last, place, &mut self.last);
        self.volume += effect.counted();
        self.trades += 1;
    }
}
