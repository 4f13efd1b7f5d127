//! Makes the rows of the readable tape: the tape's answer, the message, and the figures of its symbol after it.
ghost use Rattle.std.specs.Prelude.{◌≡◌, ◌+◌, ◌<◌, ◌^◌, ◌++◌, ◌∷◌, [], IfOk, OnOk, string_bytes, true};
ghost use Rattle.tape_core.specs.Tape.{lists_symbol};
ghost use Rattle.csv.specs.Records.{fields_of, partial_of};
ghost use Rattle.csv.specs.Writing.{default_writer, row_text};
ghost use Rattle.csv_lines.specs.Lines.{IsAtLineStart, lines_text};
ghost use Rattle.tape_core.specs.Answers.{answer, tape_after};
ghost use Rattle.csv_days.specs.Days.{AnswersMore, symbol_of};
ghost use Rattle.csv_days.specs.TapeRows.{answer_fields, tape_columns, figures_after, figures_fields, mark_field, refusal_text, tape_fields, tape_row};

use crate::day::TableDay;
use csv::{ByteRecord, Writer};
use csv_lines::{line_of, push_number, put_line};
use csv_messages::{TAPE_COLUMNS, push_price, push_row};
use reports::Message;
use scratch_fold::Mark;
use std::alloc::{AllocError, Global};
use tape_core::{IndexedTape, Refusal, RowFigures, TapeAnswer};

/// Returns the line of the columns' names.
pub fn head_text(alloc: Global) -> Result<Vec<u8>, AllocError>
    ensures { IfOk result (λ text. text.items ≡ row_text default_writer tape_columns) }
{
    line_of(alloc, &TAPE_COLUMNS)
}

/// Returns a refusal as its number and its name, with a space between them.
///
/// Errors: memory ran out.
pub fn refusal_text(alloc: Global, refusal: Refusal) -> Result<String, AllocError>
    ensures text { IfOk result (λ text. string_bytes text ≡ refusal_text refusal) }
{
    let code = refusal.code();
    let name = refusal.name();
    format!(in alloc; "{code} {name}")
}

/// Adds the tape number and the refusal, one of them empty.
fn push_answer(
    alloc: Global,
    fields: &mut ByteRecord,
    answer: &TapeAnswer,
) -> Result<(), AllocError>
    requires { partial_of fields.old ≡ [] }
    ensures fields { OnOk result (fields_of fields.new ≡ fields_of fields.old ++ answer_fields answer.now) }
    ensures partial { OnOk result (partial_of fields.new ≡ []) }
{
    match answer {
        Ok(number) => {
            push_number(fields, u64::from(number.value()))?;
            fields.push_field(b"")
        }
        Err(refusal) => {
            fields.push_field(b"")?;
            let text = refusal_text(alloc, *refusal)?;
            fields.push_field(text.as_bytes())
        }
    }
}

/// Adds the price of a mark in dollars, or an empty field.
fn push_mark(fields: &mut ByteRecord, mark: Option<Mark>) -> Result<(), AllocError>
    requires { partial_of fields.old ≡ [] }
    ensures fields { OnOk result (fields_of fields.new ≡ fields_of fields.old ++ mark_field mark ∷ []) }
    ensures partial { OnOk result (partial_of fields.new ≡ []) }
{
    match mark {
        Some(mark) => push_price(fields, mark.price),
        None => fields.push_field(b""),
    }
}

/// Adds the figures of a row.
fn push_figures(fields: &mut ByteRecord, figures: &RowFigures) -> Result<(), AllocError>
    requires { partial_of fields.old ≡ [] }
    ensures fields { OnOk result (fields_of fields.new ≡ fields_of fields.old ++ figures_fields figures.now) }
    ensures partial { OnOk result (partial_of fields.new ≡ []) }
{
    push_mark(fields, figures.consolidated.opening)?;
    push_mark(fields, figures.consolidated.high)?;
    push_mark(fields, figures.consolidated.low)?;
    push_mark(fields, figures.consolidated.last)?;
    push_number(fields, figures.consolidated.volume)?;
    push_number(fields, u64::from(figures.consolidated.trades))
}

/// Adds a row as a line, by a record that is used again for each.
#[tactic(auto, unfolding(crate::specs::TapeRows::tape_fields))]
pub fn put_row(
    alloc: Global,
    writer: &mut Writer<Vec<u8>>,
    fields: &mut ByteRecord,
    answer: &TapeAnswer,
    message: &Message,
    figures: &RowFigures,
) -> Result<(), AllocError>
    requires { IsAtLineStart writer.old }
    ensures start { OnOk result (IsAtLineStart writer.new) }
    ensures text { OnOk result (lines_text writer.new ≡ lines_text writer.old
        ++ row_text default_writer (tape_fields (record { answer = answer.now; message = message.now; figures = figures.now }))) }
{
    fields.clear();
    push_answer(alloc, fields, answer)?;
    push_row(fields, message)?;
    push_figures(fields, figures)?;
    put_line(writer, fields)
}

/// Returns the figures of a message's symbol, which the tape lists.
pub fn figures_of(tape: &IndexedTape, message: &Message) -> RowFigures
    requires { lists_symbol tape.now.listing (symbol_of message.now) ≡ true }
    ensures { result ≡ figures_after tape.now message.now }
{
    match tape.summary(message.header().symbol) {
        Some(consolidated) => RowFigures { consolidated },
        None => unreachable!(),
    }
}

/// Answers a day's next message, and adds its row as a line, by a record that is used again for each.
#[tactic(auto, unfolding(crate::specs::TapeRows::tape_row))]
pub fn put_next(
    day: &mut TableDay,
    message: Message,
    writer: &mut Writer<Vec<u8>>,
    fields: &mut ByteRecord,
) -> Result<(), AllocError>
    requires row { day.old.row + 1 < 2 ^ 64 }
    requires listed { lists_symbol day.old.tape.listing (symbol_of message) ≡ true }
    requires start { IsAtLineStart writer.old }
    ensures start { OnOk result (IsAtLineStart writer.new) }
    ensures text { OnOk result (lines_text writer.new
        ≡ lines_text writer.old ++ row_text default_writer (tape_fields (tape_row day.old.tape message))) }
    ensures tape { OnOk result (day.new.tape ≡ tape_after day.old.tape message) }
    ensures row_number { OnOk result (day.new.row ≡ day.old.row + 1) }
    ensures more { OnOk result (AnswersMore day.old day.new (message ∷ [])) }
{
    let answered = day.answer(message)?;
    let figures = figures_of(&day.tape, &message);
    put_row(day.alloc, writer, fields, &answered, &message, &figures)
}
