//! Tests what is published, found and answered of a day that is still open, and what the ended day confirms and answers.
ghost use Rattle.std.specs.Prelude.{◌≡◌};
ghost use Rattle.line_ledger.specs.Cells.{FirstTokens};
ghost use Rattle.line_ledger.specs.Days.{terms_of};

use super::days::{Confirmed, confirmed, day_of_two, ended_day, report};
use line_ledger::{DayName, LineSeat, Prepared, PublishFault, Published, SharedTape, Sighting};
use reports::decode;
use retransmit::serve;
use std::alloc::Global;
use std::marker::Brand;
use std::process::Abort;
use std::sync::Wait;
use std::test::Fail;
use tape_frames::{SliceSource, Source, Version};

/// A request of session 7 for 64 entries from 1.
const REQUEST: [u8; 14] = [
    0x00, 0x00, 0x00, 0x00, 0x00, 0x00, 0x00, 0x07, 0x00, 0x00, 0x00, 0x01, 0x00, 0x40,
];

/// The front of its answer over five reports: a range, one packet, its length of 235.
const FRONT: [u8; 4] = [0x00, 0x01, 0x00, 0xeb];

/// How many entries each of three publications set.
type Set = [Result<u32, PublishFault>; 3];

/// The bytes of the answer to the request.
fn answered<S: Source>(alloc: Global, source: &mut S) -> Vec<u8> {
    let mut reader = REQUEST.as_slice();
    let mut output = Vec::new(alloc);
    let _ = serve(alloc, source, 7, Version::One, &mut reader, &mut output);
    output
}

/// Admits a line's reports up to this number.
fn admit<D: DayName, W: Wait>(
    rt: &W,
    shared: &SharedTape<D>,
    seat: Option<&mut LineSeat<D>>,
    who: u8,
    last: u8,
) {
    let Some(seat) = seat else {
        return;
    };
    for number in 1..=last {
        if let Ok((message, _)) = decode(&report(who, number)) {
            let _ = shared.admit(rt, seat, message);
        }
    }
}

/// Returns what publications of at most 2, 64 and 64 set, how many entries a source found after the first of them and after the
/// last, and its tokens.
fn publications<D: DayName, R: Wait>(
    rt: &R,
    shared: &SharedTape<D>,
) -> (Set, (u32, u32), Vec<Sighting>)
    ensures { FirstTokens shared.now result.2.items }
{
    let mut published = Published::new(shared);
    let first = shared.publish(rt, 2);
    let _ = published.refresh();
    let found = published.published();
    let set = [first, shared.publish(rt, 64), shared.publish(rt, 64)];
    let _ = published.refresh();
    let all = published.published();
    (set, (found, all), published.into_sightings())
}

/// The sum of the numbers of the cells that show an entry, each plus one, so that a cell of number 0 would count. The last cell
/// looked at is one after the tape's limit.
fn numbers_shown<D: DayName>(shared: &SharedTape<D>) -> u32 {
    let mut sum: u32 = 0;
    for number in 0..32 {
        if shared.look(number).is_some() {
            sum = sum.saturating_add(number + 1);
        }
    }
    sum
}

/// What the ended day confirms of what was found, and its answer to the request. A missing seat stops the test.
fn confirmed_and_answered<D: DayName, A: Abort>(
    rt: &A,
    alloc: Global,
    shared: SharedTape<D>,
    seats: Vec<LineSeat<D>>,
    tokens: &Vec<Sighting>,
) -> Option<(Confirmed, Vec<u8>)>
    requires { FirstTokens shared tokens.now.items }
{
    let day = ended_day(rt, shared, seats)?;
    let confirmed = confirmed(&day, tokens);
    Some((confirmed, answered(alloc, &mut SliceSource::of(day.tape()))))
}

/// What was set, found and shown of a day, its answer to the request from a source over the cells that was never refreshed, and
/// what the ended day confirms and answers.
type Served = (Set, (u32, u32), u32, Vec<u8>, (Confirmed, Vec<u8>));

/// The same of three reports of N and two of Q.
fn served<D: DayName, W: Wait + Abort>(rt: &W, alloc: Global, prepared: Prepared) -> Option<Served>
    requires name { prepared.blank.name ≡ D.name }
    requires parts { prepared.blank.parts ≡ D.parts }
    requires terms { terms_of prepared.tape ≡ D.terms }
{
    let Ok((shared, mut seats)) = SharedTape::<D>::open(prepared) else {
        return None;
    };
    admit(rt, &shared, seats.get_mut(0), b'N', 3);
    admit(rt, &shared, seats.get_mut(1), b'Q', 2);
    let (set, found, tokens) = publications(rt, &shared);
    let shown = numbers_shown(&shared);
    let from_cells = answered(alloc, &mut Published::new(&shared));
    let ended = confirmed_and_answered(rt, alloc, shared, seats, &tokens);
    Some((set, found, shown, from_cells, ended?))
}

/// The same of a prepared day.
fn served_of<W: Wait + Abort>(rt: &W, alloc: Global, prepared: Prepared) -> Option<Served> {
    served::<Brand, W>(rt, alloc, prepared)
}

#[test]
fn what_is_published_is_found_answered_and_confirmed(rt: HostRuntime) -> Result<(), Fail> {
    let prepared = day_of_two(rt.alloc()).ok_or("a day")?;
    let (set, found, shown, from_cells, ended) = served_of(&rt, rt.alloc(), prepared).ok_or(
        "an end",
    )?;
    let (confirmed, from_day) = ended;
    assert_eq!(rt; set, [Ok(2), Ok(3), Ok(0)]);
    // Of the cells those from 1 to 5 show an entry.
    assert_eq!(rt; (found, shown), ((2, 5), 20));
    assert_eq!(rt; confirmed, (5, 5, 5));
    assert!(rt; from_cells.starts_with(&FRONT) && from_cells.len() == 239);
    assert!(rt; from_cells == from_day);
    Ok(())
}
