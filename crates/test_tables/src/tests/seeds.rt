//! Tests that both stores have the same summary after each of the same changes.
ghost use Rattle.std.specs.Prelude.{◌<◌};

use super::dice::{Dice, letter};
use super::stores::{Kind, Settled, effect};
use sale_matrix::LastRule;
use scratch_fold::{Effect, Summary};
use std::alloc::Global;
use summaries::{IndexStore, ScratchStore};
use tape_types::{Participant, Price, Size, TapeNumber};

/// The plain store and the one over indexes.
#[derive(Drop)]
struct Both {
    plain: Settled<ScratchStore>,
    indexed: Settled<IndexStore>,
}

impl Both {
    fn empty(alloc: Global) -> Self {
        Both {
            plain: Settled::empty(alloc),
            indexed: Settled::empty(alloc),
        }
    }

    /// Returns whether both have the same effect at a place and the same summary.
    fn agree(&self, place: TapeNumber) -> bool {
        self.plain.get(place) == self.indexed.get(place)
            && self.plain.summary() == self.indexed.summary()
    }

    /// Returns whether both find the effect at a place, and the summary, by few searches.
    fn are_soon(&self, place: TapeNumber) -> bool {
        self.plain.is_found_soon(place)
            && self.indexed.is_found_soon(place)
            && self.plain.is_summed_soon()
            && self.indexed.is_summed_soon()
    }

    /// Changes both, and returns whether all went well and they agree.
    fn change(&mut self, kind: Kind, place: TapeNumber, effect: &Effect) -> bool {
        self.plain.change(kind, place, effect)
            && self.indexed.change(kind, place, effect)
            && self.agree(place)
            && self.are_soon(place)
    }

    /// Puts the n-th of the 508 effects at its place.
    fn put_the(&mut self, n: u32) -> Option<bool>
        requires { n < 509 }
    {
        let place = TapeNumber::try_new(7 * n % 509)?;
        Some(self.change(Kind::Put, place, &effect_of(n)?))
    }

    /// Puts the 508 effects, each at a place of its own, and returns how many went well.
    fn put_the_508(&mut self) -> u32 {
        let mut count = 0_u32;
        for n in 1..=508_u32 {
            if self.put_the(n) == Some(true) {
                count = count.saturating_add(1);
            }
        }
        count
    }

    /// Takes the effect from a place that has one.
    fn take(&mut self, number: u32) -> Option<bool> {
        let place = TapeNumber::try_new(number)?;
        let effect = self.plain.get(place)?;
        Some(self.change(Kind::Take, place, &effect))
    }

    /// Takes the effects at every third place, and returns how many went well.
    fn take_each_third(&mut self) -> u32 {
        let mut count = 0_u32;
        for third in 1..=169_u32 {
            if self.take(3 * third) == Some(true) {
                count = count.saturating_add(1);
            }
        }
        count
    }

    /// Makes a change at a place up to `last`.
    fn roll(&mut self, dice: &mut Dice, last: u32) -> Option<bool>
        requires { 0 < last }
    {
        let place = TapeNumber::try_new(dice.roll(last).saturating_add(1))?;
        let effect = dice.effect()?;
        let kind = dice.kind(self.plain.get(place).is_some());
        Some(self.change(kind, place, &effect))
    }

    /// Makes `count` changes at places up to `last`, and returns how many went well.
    fn follow_dice(&mut self, count: u32, last: u32) -> u32
        requires { 0 < last }
    {
        let mut dice = Dice::of(7);
        let mut well = 0_u32;
        for _ in 0..count {
            if self.roll(&mut dice, last) == Some(true) {
                well = well.saturating_add(1);
            }
        }
        well
    }

    /// Takes the effects of the first places, up to `last`, one after another, and returns whether the summary is then empty.
    fn empty_to(&mut self, last: u32) -> bool {
        for number in 1..=last {
            if self.take(number) == Some(false) {
                return false;
            }
        }
        self.indexed.summary() == Summary::empty()
    }
}

/// Returns the n-th of the four rules.
fn rule(n: u32) -> LastRule {
    match n % 4 {
        0 => LastRule::Always,
        1 => LastRule::SameMarket,
        2 => LastRule::FirstOnly,
        _ => LastRule::Never,
    }
}

/// Returns the n-th of the 508 effects.
fn effect_of(n: u32) -> Option<Effect>
    requires { n < 509 }
{
    effect(letter(n), rule(n), 100_000 + u64::from(n * n % 97))
}

/// Returns how many of the 508 effects were put well, how many of each third were taken well, and how many are left.
fn counts_of_508(alloc: Global) -> [u32; 3] {
    let mut both = Both::empty(alloc);
    [
        both.put_the_508(),
        both.take_each_third(),
        both.indexed.summary().trades,
    ]
}

#[test]
fn both_stores_agree_while_508_effects_come_and_each_third_goes(rt: HostRuntime) {
    assert_eq!(rt; counts_of_508(rt.alloc()), [508, 169, 339]);
}

impl Dice {
    /// Returns an effect of any kind.
    fn effect(&mut self) -> Option<Effect> {
        let any = self.roll(1_000_000);
        Some(Effect {
            price: Price::try_new(100_000 + u64::from(any % 50))?,
            size: Size::try_new(1 + any % 900)?,
            who: Participant::try_new(letter(any))?,
            high_low: any % 7 > 1,
            last: rule(any / 16),
            volume: any % 11 > 2,
        })
    }

    /// Returns one of the changes that can be made at a place.
    fn kind(&mut self, stands: bool) -> Kind {
        if !stands {
            return Kind::Put;
        }
        match self.roll(4) {
            0 => Kind::Swap,
            1 => Kind::Commit,
            2 => Kind::Abort,
            _ => Kind::Take,
        }
    }
}

/// Returns whether ten thousand changes went well, more than two thousand effects stood after them, and the stores were
/// emptied.
fn go_well_over_ten_thousand(alloc: Global) -> bool {
    let mut both = Both::empty(alloc);
    both.follow_dice(10_000, 3_000) == 10_000
        && both.plain.summary().trades > 2_000
        && both.empty_to(3_000)
}

#[test]
fn both_stores_agree_over_ten_thousand_changes_whose_blocks_split_and_empty(rt: HostRuntime) {
    assert!(rt; go_well_over_ten_thousand(rt.alloc()));
}
