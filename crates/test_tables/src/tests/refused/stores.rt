//! Tests stores that take, stage and exchange effects.

use super::super::stores::{Kind, Settled, effect};
use sale_matrix::LastRule;
use scratch_fold::Effect;
use std::alloc::Global;
use std::process::Abort;
use summaries::{IndexStore, ScratchStore, Store};
use tape_types::TapeNumber;

/// The effect of a number, whose rule and price differ from one to the next.
fn effect_of(number: u32) -> Option<Effect> {
    let (who, last) = match number % 4 {
        0 => (b'N', LastRule::Always),
        1 => (b'P', LastRule::SameMarket),
        2 => (b'Q', LastRule::FirstOnly),
        _ => (b'N', LastRule::SameMarket),
    };
    effect(who, last, 100_000 + u64::from(number % 97))
}

/// The name of a change that was made again.
fn named(kind: Kind) -> &'static str {
    match kind {
        Kind::Put => "put",
        Kind::Swap => "swapped",
        Kind::Commit => "staged",
        Kind::Abort => "abandoned",
        Kind::Take => "taken",
    }
}

/// Changes the store at a place. If memory is refused, the place has what it had and the summary is as before, the store then
/// takes the change, and it is printed with the store.
fn take<S: Store, A: Abort + Print>(
    rt: &A,
    over: &str,
    store: &mut Settled<S>,
    kind: Kind,
    place: TapeNumber,
    effect: &Effect,
) {
    let effect_before = store.get(place);
    let summary_before = store.summary();
    if store.change(kind, place, effect) {
        return;
    }
    let is_same = store.get(place) == effect_before && store.summary() == summary_before;
    assert!(rt; is_same);
    let is_changed = store.change(kind, place, effect);
    assert!(rt; is_changed);
    let _ = println!(rt; "{over}: {} again", named(kind));
}

/// Puts an effect at the place of a number, exchanges every third and stages another one at every fifth. `None` if there is no
/// such place or effect.
fn take_next<S: Store, A: Abort + Print>(
    rt: &A,
    over: &str,
    store: &mut Settled<S>,
    number: u32,
) -> Option<()> {
    let place = TapeNumber::try_new(number.wrapping_mul(7) % 509 + 1)?;
    take(rt, over, store, Kind::Put, place, &effect_of(number)?);
    if number % 3 == 0 {
        let other = effect_of(number.wrapping_add(1))?;
        take(rt, over, store, Kind::Swap, place, &other);
    }
    if number % 5 == 0 {
        let other = effect_of(number.wrapping_add(2))?;
        take(rt, over, store, Kind::Commit, place, &other);
    }
    Some(())
}

/// The same for so many numbers.
fn take_all<S: Store, A: Abort + Print>(rt: &A, alloc: Global, over: &str, places: u32) {
    let mut store = Settled::<S>::empty(alloc);
    for number in 0..places {
        let taken = take_next(rt, over, &mut store, number);
        assert!(rt; taken.is_some());
    }
}

#[test]
fn indexes_take_again_what_was_refused(rt: HostRuntime) {
    take_all::<IndexStore, HostRuntime>(&rt, rt.alloc(), "indexes", 400);
}

#[test]
fn a_plain_store_takes_again_what_was_refused(rt: HostRuntime) {
    take_all::<ScratchStore, HostRuntime>(&rt, rt.alloc(), "a vector", 100);
}
