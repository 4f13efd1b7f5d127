//! Reads a table and writes all its faults.
ghost use Rattle.std.specs.Prelude.{◌≡◌, ◌≢◌, ◌==◌, ◌&&◌, ◌++◌, [], Err, IfErr, IfOk, IfSome, OnErr, OnOk, is_some, not};
ghost use Rattle.std.specs.List.{flat_map};
ghost use Rattle.std.specs.Option.{option_map_or};
ghost use Rattle.csv_days.specs.Checks.{IsCheckEnd, WritesCheck, WritesCheckPart, all_kinds, check_text, faults_text, fine_text, fine_words, more_text, names_text};
ghost use Rattle.csv_days.specs.declared.table_end.TableEnd.TheVariants.{WriteFault};

use crate::TableEnd;
use crate::fault_counts::FaultCounts;
use crate::fault_kind::{FAULT_KINDS, FaultKind};
use crate::table_check::TableCheck;
use csv_messages::Column;
use std::alloc::{AllocError, Global};
use std::io::{Read, Write};
use tape_types::ListingFault;
use whole_io::{flush, write_part};

/// All kinds of faults, in the order of their lines.
const ALL_KINDS: [FaultKind; FAULT_KINDS] = [
    FaultKind::BadField(Column::Kind),
    FaultKind::BadField(Column::Participant),
    FaultKind::BadField(Column::Number),
    FaultKind::BadField(Column::Moment),
    FaultKind::BadField(Column::Symbol),
    FaultKind::BadField(Column::Target),
    FaultKind::BadField(Column::Price),
    FaultKind::BadField(Column::Size),
    FaultKind::BadField(Column::Condition),
    FaultKind::UnusedField(Column::Kind),
    FaultKind::UnusedField(Column::Participant),
    FaultKind::UnusedField(Column::Number),
    FaultKind::UnusedField(Column::Moment),
    FaultKind::UnusedField(Column::Symbol),
    FaultKind::UnusedField(Column::Target),
    FaultKind::UnusedField(Column::Price),
    FaultKind::UnusedField(Column::Size),
    FaultKind::UnusedField(Column::Condition),
    FaultKind::OtherFields,
];

/// Adds the line of the faults of a kind, or nothing if there are none.
fn push_kind(
    alloc: Global,
    text: &mut Vec<u8>,
    counts: &FaultCounts,
    kind: FaultKind,
) -> Result<(), AllocError>
    ensures { OnOk result (text.new.items ≡ text.old.items ++ more_text counts.now kind) }
{
    let count = counts.of(kind);
    if count == 0 {
        return Ok(());
    }
    let line = format!(in alloc; "{count} more: {kind}\n")?;
    text.extend_from_slice(line.as_bytes())
}

/// Adds the lines of faults of these kinds, one after another.
fn push_kinds(
    alloc: Global,
    text: &mut Vec<u8>,
    counts: &FaultCounts,
    kinds: &[FaultKind],
) -> Result<(), AllocError>
    ensures { OnOk result (text.new.items ≡ text.old.items ++ flat_map (more_text counts.now) kinds.now) }
{
    for kind in kinds {
        push_kind(alloc, text, counts, *kind)?;
    }
    Ok(())
}

/// Returns the line of names that make no listing.
fn names_text(fault: ListingFault) -> &'static [u8]
    ensures { result.now ≡ names_text fault }
{
    match fault {
        ListingFault::Empty => b"the table has no row\n",
        ListingFault::TooMany => b"the table has more than 4096 symbols\n",
        ListingFault::Repeated => b"a name stands twice in the listing\n",
        ListingFault::OutOfMemory => b"out of memory\n",
    }
}

/// Returns the line of the names, if anything is wrong with them.
fn names_line(wrong: Option<ListingFault>) -> &'static [u8]
    ensures { result.now ≡ option_map_or names_text wrong [] }
{
    match wrong {
        Some(fault) => names_text(fault),
        None => b"",
    }
}

/// Returns the words for one row, or several, without a fault.
fn fine_words(rows: u64) -> &'static str
    ensures { result.now ≡ fine_words rows }
{
    if rows == 1 {
        " row, no fault\n"
    } else {
        " rows, no fault\n"
    }
}

/// Returns the line of a table without a fault.
fn fine_text(alloc: Global, rows: u64) -> Result<Vec<u8>, AllocError>
    ensures { IfOk result (λ text. text.items ≡ fine_text rows) }
{
    let mut text = Vec::new(alloc);
    let words = fine_words(rows);
    let line = format!(in alloc; "{rows}{words}")?;
    text.extend_from_slice(line.as_bytes())?;
    Ok(text)
}

/// Returns the lines of a table's faults.
fn faults_text(
    alloc: Global,
    check: &TableCheck,
    names: Option<ListingFault>,
) -> Result<Vec<u8>, AllocError>
    ensures { IfOk result (λ text. text.items ≡ faults_text check.now.lines.items check.now.more names) }
{
    let mut text = Vec::new(alloc);
    text.extend_from_slice(&check.lines)?;
    push_kinds(alloc, &mut text, &check.more, &ALL_KINDS)?;
    text.extend_from_slice(names_line(names))?;
    Ok(text)
}

/// Returns whether a check found no fault.
fn is_fine(check: &TableCheck, names: Option<ListingFault>) -> bool
    ensures { result ≡ (check.now.told == 0) && not (is_some names) }
{
    check.told == 0 && names.is_none()
}

/// Returns the text of a check.
fn check_text(
    alloc: Global,
    check: &TableCheck,
    names: Option<ListingFault>,
) -> Result<Vec<u8>, AllocError>
    ensures { IfOk result (λ text. text.items ≡ check_text check.now names) }
{
    if is_fine(check, names) {
        fine_text(alloc, check.rows)
    } else {
        faults_text(alloc, check, names)
    }
}

/// Reads a table to its end and writes all its faults: a line for each of the first `FAULTS_TOLD` rows that are no messages,
/// then how many more there are of each kind, and then whether its names are too many. Returns whether there is no fault; then
/// one line says so with the number of rows. A fault of the header row is the only one, since no row can be read under it. What
/// was written is flushed at the end.
///
/// Errors: a failed read, memory that ran out, or a write that failed. Nothing is written except at a `WriteFault`.
pub fn check_over<R: Read + Drop, W: Write>(
    alloc: Global,
    reader: R,
    writer: &mut W,
) -> Result<bool, TableEnd>
    ensures written { IfSome (R.remaining reader) (λ input. IfOk result (λ faultless. WritesCheck input faultless (W.contents writer.old) (W.contents writer.new))) }
    ensures end { IfErr result IsCheckEnd }
    ensures silent { result ≢ Err WriteFault → OnErr result (writer.new ≡ writer.old) }
    ensures prefix { result ≡ Err WriteFault → IfSome (R.remaining reader) (λ input. WritesCheckPart input (W.contents writer.old) (W.contents writer.new)) }
{
    let check = TableCheck::of_table(alloc, reader)?;
    let names = check.names.wrong(alloc)?;
    let text = check_text(alloc, &check, names)?;
    write_part(writer, &text)?;
    flush(writer)?;
    Ok(is_fine(&check, names))
}
