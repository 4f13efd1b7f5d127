//! A store whose changes are checked: each was possible, found memory and made few searches.
ghost use Rattle.std.specs.Prelude.{◌≡◌, None};
ghost use Rattle.std.specs.FinMap as map;

use price_index::Searches;
use sale_matrix::LastRule;
use scratch_fold::{Effect, Summary};
use std::alloc::Global;
use std::marker::Model;
use summaries::Store;
use tape_types::{Participant, Price, Size, TapeNumber};

/// Returns an effect of a hundred shares that counts for the high, the low and the volume.
pub(super) fn effect(who: u8, last: LastRule, price: u64) -> Option<Effect> {
    Some(Effect {
        price: Price::try_new(price)?,
        size: Size::try_new(100)?,
        who: Participant::try_new(who)?,
        high_low: true,
        last,
        volume: true,
    })
}

/// Returns whether a call made as few searches as promised.
fn is_few(searches: &Searches) -> bool {
    searches.made() <= 24
}

/// A change at a place.
#[derive(Clone, Copy)]
pub(super) enum Kind {
    /// An effect is put at a place that has none.
    Put,
    /// The effect is replaced.
    Swap,
    /// The effect is replaced in two steps.
    Commit,
    /// Another effect is staged and dropped.
    Abort,
    /// The effect is taken.
    Take,
}

/// A store with nothing staged. A change went well if the place was as expected, there was room and each call made at most 24
/// searches.
#[derive(Drop)]
pub(super) struct Settled<S: Store> {
    store: S,
}

impl<S: Store> Model for Settled<S> {
    ghost Value = { S };

    ghost view = { λ a. a.store };

    ghost invariant = { λ a. S.staged_change a.store ≡ None };
}

impl<S: Store> Settled<S> {
    pub(super) fn empty(alloc: Global) -> Self {
        Settled {
            store: S::empty(alloc),
        }
    }

    pub(super) fn get(&self, place: TapeNumber) -> Option<Effect>
        ensures { result ≡ map.get (S.effects self.now) place }
    {
        self.store.get(place, &mut Searches::new())
    }

    /// Returns whether a look at a place takes few searches.
    pub(super) fn is_found_soon(&self, place: TapeNumber) -> bool {
        let mut searches = Searches::new();
        let _effect = self.store.get(place, &mut searches);
        is_few(&searches)
    }

    pub(super) fn summary(&self) -> Summary {
        self.store.summary(&mut Searches::new())
    }

    /// Returns whether a summary takes few searches.
    pub(super) fn is_summed_soon(&self) -> bool {
        let mut searches = Searches::new();
        let _summary = self.store.summary(&mut searches);
        is_few(&searches)
    }

    pub(super) fn put(&mut self, place: TapeNumber, effect: Effect) -> bool {
        if self.get(place).is_some() {
            return false;
        }
        let mut searches = Searches::new();
        let is_put = self.store.put(place, effect, &mut searches).is_ok();
        is_put && is_few(&searches)
    }

    fn swap(&mut self, place: TapeNumber, effect: Effect) -> bool {
        if self.get(place).is_none() {
            return false;
        }
        let mut searches = Searches::new();
        let is_swapped = self.store.swap(place, effect, &mut searches).is_ok();
        is_swapped && is_few(&searches)
    }

    /// Stages a change, which does not show in the map, and makes it.
    fn commit(&mut self, place: TapeNumber, effect: Effect) -> bool {
        let old = self.get(place);
        if old.is_none() {
            return false;
        }
        let mut staging = Searches::new();
        if self.store.stage(place, effect, &mut staging).is_err() {
            return false;
        }
        let is_hidden = self.store.get(place, &mut Searches::new()) == old;
        let mut making = Searches::new();
        self.store.commit(&mut making);
        is_hidden && is_few(&staging) && is_few(&making)
    }

    /// Stages a change and drops it.
    fn abort(&mut self, place: TapeNumber, effect: Effect) -> bool {
        if self.get(place).is_none() {
            return false;
        }
        let mut staging = Searches::new();
        if self.store.stage(place, effect, &mut staging).is_err() {
            return false;
        }
        let mut giving_up = Searches::new();
        self.store.abort(&mut giving_up);
        is_few(&staging) && is_few(&giving_up)
    }

    pub(super) fn take(&mut self, place: TapeNumber) -> bool {
        let old = self.get(place);
        if old.is_none() {
            return false;
        }
        let mut searches = Searches::new();
        let taken = self.store.take(place, &mut searches);
        old == Some(taken) && is_few(&searches)
    }

    pub(super) fn change(&mut self, kind: Kind, place: TapeNumber, effect: &Effect) -> bool {
        match kind {
            Kind::Put => self.put(place, *effect),
            Kind::Swap => self.swap(place, *effect),
            Kind::Commit => self.commit(place, *effect),
            Kind::Abort => self.abort(place, *effect),
            Kind::Take => self.take(place),
        }
    }
}
