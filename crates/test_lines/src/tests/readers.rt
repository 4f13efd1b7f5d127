//! Tests two readers that take no lock, beside two lines that admit and publish.
ghost use Rattle.std.specs.Prelude.{◌≡◌};
ghost use Rattle.line_ledger.specs.Cells.{FirstTokens};
ghost use Rattle.line_ledger.specs.Days.{terms_of};

use super::days::{Confirmed, TURNS, confirmed, day_of_two, ended_day};
use super::sending::send_all;
use line_ledger::{DayName, LineSeat, Prepared, Published, SharedTape, Sighting};
use std::alloc::Global;
use std::marker::Brand;
use std::process::Abort;
use std::sync::Wait;
use std::sync::atomic::{AtomicU32, Ordering};
use std::thread;
use std::thread::{Threads, join};
use tape_frames::Source;
use tape_types::Gate;

/// How many messages each line sends.
const MANY: u32 = 5;

/// How many of two readers have found an entry. As a gate it holds each line after its first message until both have, and
/// counts the lines that saw it.
#[derive(Drop)]
struct Readers {
    found: AtomicU32,
    seen: AtomicU32,
}

impl Readers {
    /// Counts a reader that has just found its first entries: it had `before` entries, and has `now`.
    fn note(&self, before: u32, now: u32) {
        if before == 0 && now > 0 {
            self.found.fetch_add(1, Ordering::SeqCst);
        }
    }
}

impl Gate for Readers {
    fn between(&self, _line: usize, turn: u32) {
        if turn != 1 {
            return;
        }
        for _ in 0..TURNS {
            if self.found.load(Ordering::SeqCst) == 2 {
                self.seen.fetch_add(1, Ordering::SeqCst);
                return;
            }
            thread::yield_now();
        }
    }
}

/// Looks for published entries again and again until they are all that the lines send, and returns a token for each.
fn read_all<D: DayName>(shared: &SharedTape<D>, readers: &Readers) -> Vec<Sighting>
    ensures { FirstTokens shared.now result.items }
{
    let mut published = Published::new(shared);
    for _ in 0..TURNS {
        let before = published.published();
        if before == 2 * MANY {
            break;
        }
        let _ = published.refresh();
        readers.note(before, published.published());
        thread::yield_now();
    }
    published.into_sightings()
}

/// What two readers found.
fn read_twice<D: DayName + Send + Sync, T: Threads + Sync>(
    rt: &T,
    shared: &SharedTape<D>,
    readers: &Readers,
) -> (Vec<Sighting>, Vec<Sighting>)
    ensures { FirstTokens shared.now result.0.items × FirstTokens shared.now result.1.items }
{
    join(
        rt,
        || -> Vec<Sighting>
            ensures { FirstTokens shared.entry.now result.items }
        { read_all(shared, readers) },
        || -> Vec<Sighting>
            ensures { FirstTokens shared.entry.now result.items }
        { read_all(shared, readers) },
    )
}

/// What two readers found while the lines sent.
fn read_while_sent<D: DayName + Send + Sync, T: Threads + Wait + Sync>(
    rt: &T,
    shared: &SharedTape<D>,
    seats: &mut Vec<LineSeat<D>>,
    readers: &Readers,
) -> (Vec<Sighting>, Vec<Sighting>)
    ensures { FirstTokens shared.now result.0.items × FirstTokens shared.now result.1.items }
{
    let ((), tokens) = join(
        rt,
        || send_all(rt, shared, seats, &[MANY, MANY], 64, readers),
        || -> (Vec<Sighting>, Vec<Sighting>)
            ensures { FirstTokens shared.entry.now result.0.items × FirstTokens shared.entry.now result.1.items }
        { read_twice(rt, shared, readers) },
    );
    tokens
}

/// What the ended day confirms of what each of two readers found. A missing seat stops the test.
fn both_confirmed<D: DayName, A: Abort>(
    rt: &A,
    shared: SharedTape<D>,
    seats: Vec<LineSeat<D>>,
    one: &Vec<Sighting>,
    other: &Vec<Sighting>,
) -> Option<(Confirmed, Confirmed)>
    requires one { FirstTokens shared one.now.items }
    requires other { FirstTokens shared other.now.items }
{
    let day = ended_day(rt, shared, seats)?;
    Some((confirmed(&day, one), confirmed(&day, other)))
}

/// What the day of these lines confirms of what each reader found.
fn read_day<D: DayName + Send + Sync, T: Threads + Wait + Abort + Sync>(
    rt: &T,
    prepared: Prepared,
    readers: &Readers,
) -> Option<(Confirmed, Confirmed)>
    requires name { prepared.blank.name ≡ D.name }
    requires parts { prepared.blank.parts ≡ D.parts }
    requires terms { terms_of prepared.tape ≡ D.terms }
{
    let Ok((shared, mut seats)) = SharedTape::<D>::open(prepared) else {
        return None;
    };
    let (one, other) = read_while_sent(rt, &shared, &mut seats, readers);
    both_confirmed(rt, shared, seats, &one, &other)
}

fn read_prepared<T: Threads + Wait + Abort + Sync>(
    rt: &T,
    prepared: Prepared,
    readers: &Readers,
) -> Option<(Confirmed, Confirmed)> {
    read_day::<Brand, T>(rt, prepared, readers)
}

fn read_day_of_two<T: Threads + Wait + Abort + Sync>(
    rt: &T,
    alloc: Global,
    readers: &Readers,
) -> Option<(Confirmed, Confirmed)> {
    read_prepared(rt, day_of_two(alloc)?, readers)
}

#[test]
fn the_day_confirms_what_was_read_while_lines_admitted(rt: HostRuntime) {
    let readers = Readers {
        found: AtomicU32::new(0),
        seen: AtomicU32::new(0),
    };
    let all = (10, 10, 10);
    assert_eq!(rt;
        read_day_of_two(&rt, rt.alloc(), &readers),
        Some((all, all))
    );
    assert_eq!(rt; readers.seen.load(Ordering::SeqCst), 2);
}
