//! Tests insertions into the three indexes.

use place_index::{MarketIndex, PlaceIndex};
use price_index::{PriceIndex, Searches};
use std::process::Abort;
use tape_types::{Participant, Price, TapeNumber};

/// How many places are put in: enough for blocks to split.
const PLACES: u32 = 600;

/// The place of a number: all are different.
fn place_of(number: u32) -> Option<TapeNumber> {
    TapeNumber::try_new(number.wrapping_mul(7) % 701 + 1)
}

/// Puts a price in, twice if memory was refused, which leaves the ends and the pair as they were.
fn insert_price<A: Abort>(rt: &A, index: &mut PriceIndex, price: Price, place: TapeNumber) {
    let mut searches = Searches::new();
    let lowest = index.lowest(&mut searches);
    let highest = index.highest(&mut searches);
    if index.insert(price, place, &mut searches).is_ok() {
        return;
    }
    let is_same = index.lowest(&mut searches) == lowest && index.highest(&mut searches) == highest;
    assert!(rt; is_same && !index.remove(price, place, &mut searches));
    let again = index.insert(price, place, &mut searches);
    assert!(rt; again.is_ok());
}

/// Puts a price in at each place. `None` if there is no such price or place.
fn insert_prices<A: Abort>(rt: &A, index: &mut PriceIndex) -> Option<()> {
    for number in 0..PLACES {
        let price = Price::try_new(100_000 + u64::from(number % 97))?;
        insert_price(rt, index, price, place_of(number)?);
    }
    Some(())
}

#[test]
fn prices_are_put_in_again(rt: HostRuntime) {
    let mut index = PriceIndex::new(rt.alloc());
    let inserted = insert_prices(&rt, &mut index);
    assert!(rt; inserted.is_some());
}

/// Puts a value at a place, twice if memory was refused, which leaves the place vacant and the ends as they were.
fn insert_place<A: Abort>(rt: &A, index: &mut PlaceIndex<u32>, place: TapeNumber, value: u32) {
    let mut searches = Searches::new();
    let first = index.first(&mut searches);
    let last = index.last(&mut searches);
    for _ in 0..2 {
        if index.get(place, &mut searches).is_some() {
            panic!(rt; "the place is taken")
        }
        if index.insert(place, value, &mut searches).is_ok() {
            return;
        }
        let is_same = index.first(&mut searches) == first && index.last(&mut searches) == last;
        assert!(rt; is_same);
    }
    panic!(rt; "memory was refused twice")
}

/// Puts a value at each place. `None` if there is no such place.
fn insert_places<A: Abort>(rt: &A, index: &mut PlaceIndex<u32>) -> Option<()> {
    for number in 0..PLACES {
        insert_place(rt, index, place_of(number)?, number);
    }
    Some(())
}

#[test]
fn places_are_put_in_again(rt: HostRuntime) {
    let mut index = PlaceIndex::new(rt.alloc());
    let inserted = insert_places(&rt, &mut index);
    assert!(rt; inserted.is_some());
}

/// Puts a participant's place in, twice if memory was refused, which leaves the participant's last place as it was.
fn insert_market<A: Abort>(rt: &A, index: &mut MarketIndex, who: Participant, place: TapeNumber) {
    let mut searches = Searches::new();
    let last = index.last_after(who, place, &mut searches);
    if index.insert(who, place, &mut searches).is_ok() {
        return;
    }
    let is_same = index.last_after(who, place, &mut searches) == last;
    assert!(rt; is_same && !index.remove(who, place, &mut searches));
    let again = index.insert(who, place, &mut searches);
    assert!(rt; again.is_ok());
}

/// Puts each place in, of N and of Q in turn. `None` if there is no such place.
fn insert_markets<A: Abort>(rt: &A, index: &mut MarketIndex) -> Option<()> {
    for number in 0..PLACES {
        let who = Participant::try_new(if number % 2 == 0 { b'N' } else { b'Q' })?;
        insert_market(rt, index, who, place_of(number)?);
    }
    Some(())
}

#[test]
fn places_of_participants_are_put_in_again(rt: HostRuntime) {
    let mut index = MarketIndex::new(rt.alloc());
    let inserted = insert_markets(&rt, &mut index);
    assert!(rt; inserted.is_some());
}
