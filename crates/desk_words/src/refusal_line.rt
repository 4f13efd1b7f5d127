//! The line about the rows that were refused for one reason: how many of all rows, the reason, and the first row.
ghost use Rattle.std.specs.Prelude.{◌≡◌};
ghost use Rattle.desk_words.specs.RefusedRows.{refusal_line, stale_of};

use csv_days::{Refusals, StaleRow};
use std::alloc::{AllocError, Global};
use std::fmt;
use tape_core::{ALL_REFUSALS, Refusal};
use whole_io::Lines;

/// The rows that were refused for one reason. It is printed on one line, without the program's name.
#[derive(Clone, Copy, Debug, PartialEq, Eq)]
pub(crate) struct RefusalLine {
    /// How many there are, 1 or more.
    count: u64,
    /// How many rows the table has.
    rows: u64,
    /// The reason.
    reason: Refusal,
    /// The row of the first of them; the header row is row 1.
    first: u64,
    /// The numbers of the first of them, if they are stale.
    stale: Option<StaleRow>,
}

/// Why a stale row is refused, and a hint if its number is below its participant's greatest one.
#[derive(Drop)]
struct StaleReason(StaleRow);

/// Returns the first row that was refused as stale, if that is the reason.
fn stale_of(refusals: &Refusals, reason: Refusal) -> Option<StaleRow>
    ensures { result ≡ stale_of refusals.now reason }
{
    match reason {
        Refusal::Stale => refusals.stale(),
        _ => None,
    }
}

/// Returns the rows that were refused for a reason, or `None` if there are none.
fn refusal_line(refusals: &Refusals, reason: Refusal) -> Option<RefusalLine>
    ensures { result ≡ refusal_line refusals.now reason }
{
    let refused = refusals.of(reason)?;
    Some(RefusalLine {
        count: refused.count,
        rows: refusals.rows(),
        reason,
        first: refused.first,
        stale: stale_of(refusals, reason),
    })
}

/// Returns a line for each reason for which rows were refused, in the order of the reasons' numbers. It fails if memory runs
/// out.
pub(crate) fn refusal_lines(alloc: Global, refusals: &Refusals) -> Result<Lines, AllocError> {
    let mut lines = Lines::new(alloc);
    for reason in ALL_REFUSALS {
        if let Some(line) = refusal_line(refusals, reason) {
            lines.push(&line)?;
        }
    }
    Ok(lines)
}

impl fmt::Display for StaleReason {
    fn fmt<W: fmt::Write>(&self, f: &mut fmt::Formatter<W>) -> fmt::Result {
        let row = self.0;
        let letter = char::from(row.participant.value());
        write!(f, ": {letter}'s number {}", row.number.value())?;
        if row.is_repeated() {
            f.write_str(" again")
        } else {
            write!(
                f,
                " after {}; put each participant's rows in the order of their numbers, and keep the day's order otherwise",
                row.greatest
            )
        }
    }
}

impl fmt::Display for RefusalLine {
    fn fmt<W: fmt::Write>(&self, f: &mut fmt::Formatter<W>) -> fmt::Result {
        let RefusalLine {
            count,
            rows,
            reason,
            first,
            stale,
        } = *self;
        let noun = if rows == 1 { "row" } else { "rows" };
        let (code, name) = (reason.code(), reason.name());
        write!(
            f,
            "{count} of {rows} {noun} refused: {code} {name}, first at row {first}"
        )?;
        match stale {
            Some(row) => write!(f, "{}", StaleReason(row)),
            None => Ok(()),
        }
    }
}
