//! Makes the row that explains a report: what it is after all messages, and which figures it sets.
ghost use Rattle.std.specs.Prelude.{◌≡◌, ◌++◌, ◌∷◌, [], IfOk, OnOk};
ghost use Rattle.csv.specs.Records.{fields_of, partial_of};
ghost use Rattle.csv.specs.Writing.{default_writer, row_text};
ghost use Rattle.csv_lines.specs.Lines.{IsAtLineStart, lines_text};
ghost use Rattle.csv_days.specs.Explained.{change_text, counts_text, explained_line, explained_names, is_set_at, name_fields, own_fields, rule_text, set_fields, set_words, sets_text, state_fields, state_text};

use corrections::{Standing, Target};
use csv::{ByteRecord, Writer};
use csv_lines::{line_of, push_number, put_line};
use csv_messages::push_content;
use reports::Header;
use sale_matrix::{Cells, LastRule};
use scratch_fold::{Mark, Summary};
use std::alloc::{AllocError, Global};
use tape_types::TapeNumber;

/// The names of the columns in their order.
const EXPLAINED_COLUMNS: [&[u8]; 18] = [
    b"symbol",
    b"tape",
    b"row",
    b"participant",
    b"number",
    b"moment",
    b"price",
    b"size",
    b"condition",
    b"state",
    b"changed",
    b"high_low",
    b"last",
    b"volume",
    b"sets",
    b"own_high_low",
    b"own_last",
    b"own_sets",
];

/// A report that the tape admitted, with what became of it by the end of its day.
#[derive(Clone, Copy)]
pub struct Explained {
    /// The report as it is now: its place, whether it stands, and its latest content.
    pub report: Target,
    /// Who reported it, under which number, when, and for which symbol.
    pub header: Header,
    /// The row of the table that reported it; the header row is row 1.
    pub row: u64,
    /// The tape number of the last message that corrected, cancelled or reinstated it, 0 for none.
    pub changed: u32,
    /// The figures that it may change by its latest condition.
    pub cells: Cells,
    /// The symbol's consolidated figures.
    pub figures: Summary,
    /// The participant's own figures in the symbol.
    pub own: Summary,
}

/// Returns the line of the columns' names.
pub fn explained_head(alloc: Global) -> Result<Vec<u8>, AllocError>
    ensures { IfOk result (λ text. text.items ≡ row_text default_writer explained_names) }
{
    line_of(alloc, &EXPLAINED_COLUMNS)
}

/// Returns whether a report stands, as a word.
fn state_text(state: Standing) -> &'static [u8]
    ensures { result.now ≡ state_text state }
{
    match state {
        Standing::Standing => b"standing",
        Standing::Cancelled => b"cancelled",
    }
}

/// Returns whether a trade counts, as a word.
fn counts_text(counts: bool) -> &'static [u8]
    ensures { result.now ≡ counts_text counts }
{
    if counts { b"yes" } else { b"no" }
}

/// Returns when a trade becomes the last one, in words.
fn rule_text(rule: LastRule) -> &'static [u8]
    ensures { result.now ≡ rule_text rule }
{
    match rule {
        LastRule::Always => b"yes",
        LastRule::SameMarket => b"same market",
        LastRule::FirstOnly => b"if first",
        LastRule::Never => b"no",
    }
}

/// Returns whether a figure is that of the report at a place.
fn is_set_at(place: TapeNumber, figure: Option<Mark>) -> bool
    ensures { result ≡ is_set_at place figure }
{
    match figure {
        Some(mark) => mark.place == place,
        None => false,
    }
}

/// Returns the words for the figures that are set, separated by spaces.
fn set_words(opening: bool, high: bool, low: bool, last: bool) -> &'static [u8]
    ensures { result.now ≡ set_words opening high low last }
{
    match (opening, high, low, last) {
        (false, false, false, false) => b"",
        (false, false, false, true) => b"last",
        (false, false, true, false) => b"low",
        (false, false, true, true) => b"low last",
        (false, true, false, false) => b"high",
        (false, true, false, true) => b"high last",
        (false, true, true, false) => b"high low",
        (false, true, true, true) => b"high low last",
        (true, false, false, false) => b"open",
        (true, false, false, true) => b"open last",
        (true, false, true, false) => b"open low",
        (true, false, true, true) => b"open low last",
        (true, true, false, false) => b"open high",
        (true, true, false, true) => b"open high last",
        (true, true, true, false) => b"open high low",
        (true, true, true, true) => b"open high low last",
    }
}

/// Adds the words for the figures of a summary that the report at a place sets.
fn push_sets(
    fields: &mut ByteRecord,
    place: TapeNumber,
    figures: &Summary,
) -> Result<(), AllocError>
    requires { partial_of fields.old ≡ [] }
    ensures fields { OnOk result (fields_of fields.new ≡ fields_of fields.old ++ sets_text place figures.now ∷ []) }
    ensures partial { OnOk result (partial_of fields.new ≡ []) }
{
    fields.push_field(set_words(
        is_set_at(place, figures.opening),
        is_set_at(place, figures.high),
        is_set_at(place, figures.low),
        is_set_at(place, figures.last),
    ))
}

/// Adds the tape number of a change, or an empty field.
fn push_change(fields: &mut ByteRecord, number: u32) -> Result<(), AllocError>
    requires { partial_of fields.old ≡ [] }
    ensures fields { OnOk result (fields_of fields.new ≡ fields_of fields.old ++ change_text number ∷ []) }
    ensures partial { OnOk result (partial_of fields.new ≡ []) }
{
    if number == 0 {
        fields.push_field(b"")
    } else {
        push_number(fields, u64::from(number))
    }
}

/// Adds the fields that say which report it is.
fn push_name_fields(fields: &mut ByteRecord, row: &Explained) -> Result<(), AllocError>
    requires { partial_of fields.old ≡ [] }
    ensures fields { OnOk result (fields_of fields.new ≡ fields_of fields.old ++ name_fields row.now) }
    ensures partial { OnOk result (partial_of fields.new ≡ []) }
{
    fields.push_field(row.header.symbol.name())?;
    push_number(fields, u64::from(row.report.place.value()))?;
    push_number(fields, row.row)?;
    fields.push_field(&[row.header.participant.value()])?;
    push_number(fields, u64::from(row.header.number.value()))?;
    push_number(fields, row.header.moment.value())
}

/// Adds the fields that say what became of it.
fn push_state_fields(fields: &mut ByteRecord, row: &Explained) -> Result<(), AllocError>
    requires { partial_of fields.old ≡ [] }
    ensures fields { OnOk result (fields_of fields.new ≡ fields_of fields.old ++ state_fields row.now) }
    ensures partial { OnOk result (partial_of fields.new ≡ []) }
{
    push_content(fields, Some(row.report.content))?;
    fields.push_field(state_text(row.report.standing))?;
    push_change(fields, row.changed)
}

/// Adds the fields of the symbol's figures.
fn push_set_fields(fields: &mut ByteRecord, row: &Explained) -> Result<(), AllocError>
    requires { partial_of fields.old ≡ [] }
    ensures fields { OnOk result (fields_of fields.new ≡ fields_of fields.old ++ set_fields row.now) }
    ensures partial { OnOk result (partial_of fields.new ≡ []) }
{
    fields.push_field(counts_text(row.cells.ch))?;
    fields.push_field(rule_text(row.cells.cl))?;
    fields.push_field(counts_text(row.cells.volume))?;
    push_sets(fields, row.report.place, &row.figures)
}

/// Adds the fields of the participant's own figures.
fn push_own_fields(fields: &mut ByteRecord, row: &Explained) -> Result<(), AllocError>
    requires { partial_of fields.old ≡ [] }
    ensures fields { OnOk result (fields_of fields.new ≡ fields_of fields.old ++ own_fields row.now) }
    ensures partial { OnOk result (partial_of fields.new ≡ []) }
{
    fields.push_field(counts_text(row.cells.ph))?;
    fields.push_field(rule_text(row.cells.pl))?;
    push_sets(fields, row.report.place, &row.own)
}

/// Adds a row as a line, by a record that is used again for each.
#[tactic(auto, unfolding(crate::specs::Explained::explained_fields))]
pub fn put_explained(
    writer: &mut Writer<Vec<u8>>,
    fields: &mut ByteRecord,
    row: &Explained,
) -> Result<(), AllocError>
    requires { IsAtLineStart writer.old }
    ensures start { OnOk result (IsAtLineStart writer.new) }
    ensures text { OnOk result (lines_text writer.new ≡ lines_text writer.old ++ explained_line row.now) }
{
    fields.clear();
    push_name_fields(fields, row)?;
    push_state_fields(fields, row)?;
    push_set_fields(fields, row)?;
    push_own_fields(fields, row)?;
    put_line(writer, fields)
}
