//! Tests a large store that loses its effects from the front.
ghost use Rattle.std.specs.Prelude.{◌≤◌};

use super::super::stores::{Settled, effect};
use sale_matrix::LastRule;
use scratch_fold::{Effect, Mark, Summary};
use summaries::IndexStore;
use tape_types::TapeNumber;

const LAST: u32 = 100_000;

/// Returns the effect at a place. Each always sets the last, at a price that rises with the place.
fn effect_at(number: u32) -> Option<Effect> {
    effect(b'N', LastRule::Always, 1_000_000 + u64::from(number))
}

fn mark_at(number: u32) -> Option<Mark> {
    let effect = effect_at(number)?;
    Some(Mark {
        price: effect.price,
        who: effect.who,
        place: TapeNumber::try_new(number)?,
    })
}

/// Returns the summary of the effects from a place on.
fn summary_from(first: u32) -> Summary
    requires { first ≤ 100000 }
{
    let trades = LAST + 1 - first;
    Summary {
        opening: mark_at(first),
        high: mark_at(LAST),
        low: mark_at(first),
        last: mark_at(LAST),
        trades,
        volume: 100 * u64::from(trades),
    }
}

fn put(store: &mut Settled<IndexStore>, number: u32) -> Option<bool> {
    Some(store.put(TapeNumber::try_new(number)?, effect_at(number)?))
}

/// Fills a store from the front, and returns whether that went well.
fn fills(store: &mut Settled<IndexStore>) -> bool {
    for number in 1..=LAST {
        if put(store, number) != Some(true) {
            return false;
        }
    }
    true
}

/// Returns whether the summary is of the effects from a place on and the first of them was taken.
fn take(store: &mut Settled<IndexStore>, number: u32) -> Option<bool>
    requires { number ≤ 100000 }
{
    let is_so = store.is_summed_soon() && store.summary() == summary_from(number);
    Some(is_so && store.take(TapeNumber::try_new(number)?))
}

/// Empties a store from the front, and returns whether each summary was as expected.
fn empties(store: &mut Settled<IndexStore>) -> bool {
    for number in 1..=LAST {
        if take(store, number) != Some(true) {
            return false;
        }
    }
    store.summary() == Summary::empty()
}

#[test]
fn a_store_of_a_hundred_thousand_effects_is_emptied_from_the_front(rt: HostRuntime) {
    let mut store = Settled::empty(rt.alloc());
    assert!(rt; fills(&mut store));
    assert!(rt; empties(&mut store));
}
