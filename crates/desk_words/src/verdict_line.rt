//! Writes the line of a recorded tape's verdict, and returns its status.
ghost use Rattle.std.specs.Prelude.{◌≡◌, ◌≢◌, ◌⊎◌, ◌<◌, ◌^◌, [], Err, Ok, get_or, length, map};
ghost use Rattle.csv_days.specs.TapeRows.{tape_columns};
ghost use Rattle.desk_words.specs.Verdicts.{refused_count, refused_for_any, row_counts, verdict_status};
ghost use Rattle.command_line.specs.Statuses.{status_code};
ghost use Rattle.command_line.specs.declared.status.Status.TheVariants.{WriteFault};
ghost use Rattle.desk_words.specs.Outputs.{IsQuietIfGone};
ghost use Rattle.desk_words.specs.VerifyRuns.{TellsVerdict};
ghost use Rattle.csv_days.specs.declared.table_end.TableEnd.TheVariants.{OutOfMemory};

use crate::Output;
use crate::saying::say_end;
use command_line::Status;
use csv_days::{Refusals, TableEnd};
use csv_messages::TAPE_COLUMNS;
use recorded_tapes::{Difference, Rows, Verdict};
use std::alloc::Global;
use std::io::Write;
use std::{fmt, str};
use tape_core::{ALL_REFUSALS, Refusal};
use whole_io::write_text;

/// Returns how many rows were refused for a reason.
fn refused_count(refusals: &Refusals, reason: Refusal) -> u64
    ensures { result ≡ refused_count refusals.now reason }
{
    match refusals.of(reason) {
        Some(refused) => refused.count,
        None => 0,
    }
}

/// Returns how many rows were refused for any of these reasons.
fn refused_for_any(refusals: &Refusals, reasons: &[Refusal]) -> u128
    requires { length reasons.now < 2 ^ 64 }
    ensures { result ≡ refused_for_any refusals.now reasons.now }
{
    let mut refused = 0;
    for reason in reasons {
        refused += u128::from(refused_count(refusals, *reason));
    }
    refused
}

/// How many of the rows of a recorded tape are entries, and how many are refusals.
#[derive(Clone, Copy, Debug, PartialEq, Eq)]
pub(crate) struct RowCounts {
    entries: u128,
    refusals: u128,
}

/// Returns how many of these rows are entries, and how many are refusals.
fn row_counts(rows: &Rows) -> RowCounts
    ensures { result ≡ row_counts rows.now }
{
    let refusals = refused_for_any(&rows.refusals, &ALL_REFUSALS);
    RowCounts {
        entries: u128::from(rows.count).saturating_sub(refusals),
        refusals,
    }
}

/// Returns the name at a place, counted from 0, or an empty name behind the last.
fn name_at(names: &[&'static [u8]], place: usize) -> &'static [u8]
    ensures { result.now ≡ get_or (map (λ name. name.now) names.now) place [] }
{
    if place < names.len() {
        names[place]
    } else {
        b""
    }
}

/// Returns the name of a readable tape's column, counted from 0, or an empty name behind the last.
fn column_name(column: u64) -> &'static [u8]
    ensures { result.now ≡ get_or tape_columns column [] }
{
    name_at(&TAPE_COLUMNS, column as usize)
}

/// Returns the status of a recorded tape's verdict.
fn verdict_status(verdict: &Verdict) -> Status
    ensures code { status_code result ≡ verdict_status verdict.now }
    ensures no_fault { result ≢ WriteFault }
{
    match verdict {
        Verdict::Recorded(_) => Status::Done,
        Verdict::CutOff(_, _) | Verdict::Differs(_) => Status::Differs,
    }
}

/// The first place at which a recorded tape differs, as it is printed.
#[derive(Drop)]
struct DifferenceLine<'a>(&'a Difference);

/// A recorded tape's verdict, as it is printed: on one line.
#[derive(Drop)]
struct VerdictLine<'a>(&'a Verdict);

impl fmt::Display for RowCounts {
    fn fmt<W: fmt::Write>(&self, f: &mut fmt::Formatter<W>) -> fmt::Result {
        let RowCounts { entries, refusals } = *self;
        let entry = if entries == 1 { "entry" } else { "entries" };
        let refusal = if refusals == 1 { "refusal" } else { "refusals" };
        write!(f, "{entries} {entry}, {refusals} {refusal}")
    }
}

impl fmt::Display for DifferenceLine<'_> {
    fn fmt<W: fmt::Write>(&self, f: &mut fmt::Formatter<W>) -> fmt::Result {
        let Difference {
            line,
            column,
            stands,
            wanted,
        } = *self.0;
        write!(f, "line {line}")?;
        if stands.bytes() == wanted.bytes() {
            return f.write_str(" has other fields than a readable tape's");
        }
        let name = str::from_utf8(column_name(column)).unwrap_or("");
        write!(f, ": {name} is \"{stands}\" and should be \"{wanted}\"")
    }
}

impl fmt::Display for VerdictLine<'_> {
    fn fmt<W: fmt::Write>(&self, f: &mut fmt::Formatter<W>) -> fmt::Result {
        match self.0 {
            Verdict::Recorded(rows) => write!(f, "{}, all as recorded", row_counts(rows)),
            Verdict::CutOff(rows, line) => {
                let counts = row_counts(rows);
                write!(
                    f,
                    "{counts}, all as recorded before line {line}, which is cut off"
                )
            }
            Verdict::Differs(difference) => write!(f, "{}", DifferenceLine(difference)),
        }
    }
}

/// Writes the line of a recorded tape's verdict, or says why it is not whole, and returns the status. It says so if there is no
/// memory for the line.
#[tactic(auto, using(crate::proofs::LineLemmas::grown, crate::proofs::LineLemmas::grows))]
pub fn write_verdict<W: Output, E: Write>(
    alloc: Global,
    verdict: &Verdict,
    writer: &mut W,
    errors: &mut E,
) -> Status
    ensures tells { TellsVerdict (Ok verdict.now) (status_code result) writer.old writer.new (W.contents writer.old) (W.contents writer.new)
        errors.old errors.new (E.contents errors.old) (E.contents errors.new)
        ⊎ TellsVerdict (Err OutOfMemory) (status_code result) writer.old writer.new (W.contents writer.old) (W.contents writer.new)
        errors.old errors.new (E.contents errors.old) (E.contents errors.new) }
    ensures gone { IsQuietIfGone (W.reader_gone writer.new) result errors.old errors.new }
{
    let line = VerdictLine(verdict);
    let Ok(line) = format!(in alloc; "{line}\n") else {
        return say_end(alloc, errors, false, &TableEnd::OutOfMemory);
    };
    match write_text(writer, line.as_bytes()) {
        Ok(()) => verdict_status(verdict),
        Err(_) => say_end(
            alloc,
            errors,
            writer.reader_is_gone(),
            &TableEnd::WriteFault,
        ),
    }
}
