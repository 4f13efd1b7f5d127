//! Tests a day that is opened, and entries that are admitted by a seat, published and found.
ghost use Rattle.std.specs.Prelude.{◌≡◌};
ghost use Rattle.line_ledger.specs.Days.{terms_of};

use super::super::days::{SYMBOLS, report};
use super::{REPORTS, day, ended};
use line_ledger::{
    DayName, LineRefusal, LineSeat, OpenFault, Prepared, PublishFault, Published, SharedTape, Told,
};
use reports::{Message, decode};
use scratch_fold::Summary;
use std::marker::Brand;
use std::process::Abort;
use std::sync::Wait;
use std::test::Fail;
use tape_core::Refusal;
use tape_frames::Source;
use tape_types::Symbol;

/// What a seat's holder is shown of a symbol: how many entries the tape has, how many of them are its own, and the summary.
type Shown = (u32, u32, Summary);

/// The same of one of the day's symbols.
fn shown_of<D: DayName, W: Wait>(
    rt: &W,
    shared: &SharedTape<D>,
    seat: &LineSeat<D>,
    name: [u8; 8],
) -> Option<Shown> {
    let symbol = Symbol::try_new(name)?;
    let view = shared.view(rt, seat, symbol).ok()?;
    Some((view.count(), view.mine(), view.summary()))
}

/// The same of each of the day's symbols.
fn shown<D: DayName, W: Wait>(
    rt: &W,
    shared: &SharedTape<D>,
    seat: &LineSeat<D>,
) -> [Option<Shown>; 2] {
    [
        shown_of(rt, shared, seat, SYMBOLS[0]),
        shown_of(rt, shared, seat, SYMBOLS[1]),
    ]
}

/// Whether this is what was told of Q's report with this number, which is the tape's entry of the same number.
fn is_report(told: &Told, number: u8) -> bool {
    match decode(&report(b'Q', number)) {
        Ok((message, _)) => told.message == message && told.number.value() == u32::from(number),
        Err(_) => false,
    }
}

/// Whether the seat was told of Q's first `many` reports, in order, and has their sizes and their last number.
fn is_told<D: DayName>(seat: &LineSeat<D>, many: u8) -> bool {
    for (told, number) in seat.told().iter().zip(1..=REPORTS) {
        if !is_report(told, number) {
            return false;
        }
    }
    seat.told().len() == usize::from(many)
        && seat.sizes() == 100 * u64::from(many)
        && seat.last() == u32::from(many)
}

/// Admits Q's report with this number by its seat, again if memory was refused, which leaves the seat and each symbol as they
/// were.
fn admit<D: DayName, W: Wait + Abort + Print>(
    rt: &W,
    shared: &SharedTape<D>,
    seat: &mut LineSeat<D>,
    message: &Message,
    number: u8,
) {
    let before = shown(rt, shared, seat);
    assert!(rt; matches!(before, [Some(_), Some(_)]));
    for _ in 0..2 {
        match shared.admit(rt, seat, *message) {
            Ok(receipt) => {
                assert_eq!(rt; receipt.number().value(), u32::from(number));
                return;
            }
            Err(why) => {
                assert!(rt; why == LineRefusal::Refused(Refusal::OutOfMemory));
                assert!(rt; is_told(seat, number.saturating_sub(1)));
                assert!(rt; shown(rt, shared, seat) == before);
                let _ = println!(rt; "admitted again");
            }
        }
    }
    panic!(rt; "memory was refused twice")
}

/// Publishes all that waits, again if memory was refused.
fn publish<D: DayName, W: Wait + Abort + Print>(rt: &W, shared: &SharedTape<D>) {
    for _ in 0..2 {
        match shared.publish(rt, 64) {
            Ok(_) => return,
            Err(fault) => {
                assert!(rt; fault == PublishFault::OutOfMemory);
                let _ = println!(rt; "published again");
            }
        }
    }
    panic!(rt; "memory was refused twice")
}

/// Returns how many entries a source finds, which looks again if memory was refused and then has what it had.
fn found<D: DayName, A: Abort + Print>(rt: &A, published: &mut Published<'_, D>) -> u32 {
    let before = published.published();
    for _ in 0..2 {
        if published.refresh().is_ok() {
            return published.published();
        }
        assert_eq!(rt; published.published(), before);
        let _ = println!(rt; "found again");
    }
    panic!(rt; "memory was refused twice")
}

/// Admits Q's reports by its seat, and publishes and looks after each fourth one.
fn play<D: DayName, W: Wait + Abort + Print>(
    rt: &W,
    shared: &SharedTape<D>,
    seat: &mut LineSeat<D>,
) {
    let mut published = Published::new(shared);
    for number in 1..=REPORTS {
        let Ok((message, _)) = decode(&report(b'Q', number)) else {
            panic!(rt; "the bytes are no message")
        };
        admit(rt, shared, seat, &message, number);
        if number % 4 == 0 {
            publish(rt, shared);
            let all = found(rt, &mut published);
            assert_eq!(rt; all, u32::from(number));
        }
    }
}

/// Plays a day with Q's seat, ends it, and returns whether it was opened. All its entries are published.
fn publish_in<D: DayName, W: Wait + Abort + Print>(rt: &W, prepared: Prepared) -> bool
    requires name { prepared.blank.name ≡ D.name }
    requires parts { prepared.blank.parts ≡ D.parts }
    requires terms { terms_of prepared.tape ≡ D.terms }
{
    let (shared, mut seats) = match SharedTape::<D>::open(prepared) {
        Ok(opened) => opened,
        Err(fault) => {
            assert!(rt; fault == OpenFault::OutOfMemory);
            return false;
        }
    };
    let Some(mut seat) = seats.pop() else {
        panic!(rt; "there is no seat")
    };
    play(rt, &shared, &mut seat);
    assert!(rt; seats.len() < seats.capacity());
    seats.push_reserved(seat);
    let (entries, published) = ended(rt, shared, seats);
    assert_eq!(rt; entries, u32::from(REPORTS));
    assert_eq!(rt; published, u32::from(REPORTS));
    true
}

/// The same of a day under a name of its own.
fn publish_in_a_day<W: Wait + Abort + Print>(rt: &W, prepared: Prepared) -> bool {
    publish_in::<Brand, W>(rt, prepared)
}

#[test]
fn what_was_refused_is_admitted_published_and_found_again(rt: HostRuntime) -> Result<(), Fail> {
    for _ in 0..2 {
        let prepared = day(&rt, rt.alloc())?;
        if publish_in_a_day(&rt, prepared) {
            return Ok(());
        }
        let _ = println!(rt; "opened again");
    }
    panic!(rt; "memory was refused twice")
}
