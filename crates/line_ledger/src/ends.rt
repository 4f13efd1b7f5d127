//! Checks the seats at a day's end: whether there is one of each participant, and whether each was told what the tape has.
ghost use Rattle.std.specs.Prelude.{◌≡◌, ◌↔◌, length, IsTrue, MatchOption};
ghost use Rattle.line_ledger.specs.Cursors.{AllStandAt};
ghost use Rattle.line_ledger.specs.Ends.{seats_of, IsOneEach, FirstTold, DisagreesAt};

use crate::cursor::Cursors;
use crate::{DayName, LineSeat};
use tape_core::{Entry, IndexedTape};
use tape_types::Participant;

/// Returns how many seats are the participant's.
fn seats_of<D: DayName>(seats: &[LineSeat<D>], who: Participant) -> usize
    ensures { result ≡ seats_of who seats.now }
{
    let mut many = 0;
    for seat in seats {
        if seat.participant() == who {
            many += 1;
        }
    }
    many
}

/// Returns whether there is exactly one seat of each participant.
pub(crate) fn is_one_each<D: DayName>(participants: &[Participant], seats: &[LineSeat<D>]) -> bool
    ensures { IsTrue result ↔ IsOneEach participants.now seats.now }
{
    if seats.len() != participants.len() {
        return false;
    }
    for who in participants {
        if seats_of(seats, *who) != 1 {
            return false;
        }
    }
    true
}

/// Compares what the seats were told with the tape's entries, in one pass for all participants.
fn compare<'a, D: DayName>(seats: &'a [LineSeat<D>], entries: &[Entry]) -> Cursors<'a>
    ensures { AllStandAt result.row seats.now entries.now }
{
    let mut cursors = Cursors::new(seats);
    for entry in entries {
        cursors.pass(entry);
    }
    cursors
}

/// Returns the first participant, in listing order, whose seat was not told what the tape has, and the first position where
/// they differ.
pub(crate) fn find_disagreement<D: DayName>(
    tape: &IndexedTape,
    seats: &[LineSeat<D>],
) -> Option<(Participant, usize)>
    ensures { let listed = tape.now.listing.participants in
        MatchOption result (FirstTold (length listed) listed tape.now.entries seats.now)
        (λ found. DisagreesAt listed tape.now.entries seats.now found.0 found.1) }
{
    let participants = tape.listing().participants().as_slice();
    let cursors = compare(seats, tape.entries());
    for who in participants {
        if let Some(at) = cursors.difference(*who) {
            return Some((*who, at));
        }
    }
    None
}
