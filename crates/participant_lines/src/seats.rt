//! Takes back the seats of lines that have ended or were not started.
ghost use Rattle.std.specs.Prelude.{◌≡◌, ◌≤◌, [], map, vec_len};
ghost use Rattle.std.specs.Vec.{vec_capacity};
ghost use Rattle.line_ledger.specs.Ends.{whos};

use crate::{LineEnd, TalliedEnd};
use line_ledger::{DayName, LineSeat};

/// Returns the seats of lines that have ended, in the order of the ends. It puts them into an empty vector with room for them,
/// so it does not allocate.
pub fn seats_of_ends<D: DayName>(ends: Vec<LineEnd<D>>, room: Vec<LineSeat<D>>) -> Vec<LineSeat<D>>
    requires room { vec_len ends ≤ vec_capacity room }
    requires empty { room.items ≡ [] }
    ensures seats { result.items ≡ map (λ e. e.seat) ends.items }
    ensures whos { whos result.items ≡ map (λ e. e.seat.who) ends.items }
{
    let mut seats = room;
    let mut left = ends.into_iter();
    while let Some(end) = left.next() {
        let LineEnd {
            seat,
            refused: _,
            ended: _,
        } = end;
        seats.push_reserved(seat);
    }
    left.destroy_empty();
    seats
}

/// Returns the seats of lines that have ended as `seats_of_ends` does, from their ends with tallies.
pub fn seats_of_tallied<D: DayName>(
    tallied: Vec<TalliedEnd<D>>,
    room: Vec<LineSeat<D>>,
) -> Vec<LineSeat<D>>
    requires room { vec_len tallied ≤ vec_capacity room }
    requires empty { room.items ≡ [] }
    ensures seats { result.items ≡ map (λ e. e.seat) tallied.items }
    ensures whos { whos result.items ≡ map (λ e. e.seat.who) tallied.items }
{
    let mut seats = room;
    let mut left = tallied.into_iter();
    while let Some(end) = left.next() {
        let TalliedEnd {
            seat,
            tally: _,
            ended: _,
        } = end;
        seats.push_reserved(seat);
    }
    left.destroy_empty();
    seats
}

/// Returns the seats of lines that were not started, in the order of the lines, and drops their readers. It puts them into an
/// empty vector with room for them, so it does not allocate.
pub fn seats_of_lines<D: DayName, R: Drop>(
    lines: Vec<(LineSeat<D>, R)>,
    room: Vec<LineSeat<D>>,
) -> Vec<LineSeat<D>>
    requires room { vec_len lines ≤ vec_capacity room }
    requires empty { room.items ≡ [] }
    ensures seats { result.items ≡ map (λ l. l.0) lines.items }
    ensures whos { whos result.items ≡ map (λ l. l.0.who) lines.items }
{
    let mut seats = room;
    let mut left = lines.into_iter();
    while let Some((seat, _)) = left.next() {
        seats.push_reserved(seat);
    }
    left.destroy_empty();
    seats
}
