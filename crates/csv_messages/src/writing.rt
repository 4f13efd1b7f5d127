//! Writes a message as its canonical row.
ghost use Rattle.std.specs.Prelude.{◌≡◌, ◌<◌, ◌++◌, ◌∷◌, [], OnOk, decimal};
ghost use Rattle.csv.specs.Records.{fields_of, partial_of};
ghost use Rattle.csv_messages.specs.Laws.{RowRoundTrip};
ghost use Rattle.csv_messages.specs.Texts.{code_byte};
ghost use Rattle.csv_messages.specs.Writing.{condition_text, header_fields, digit_at, kind_text, price_text, row_fields, row_of, text_or_none};

use crate::price::DOLLAR;
use csv::ByteRecord;
use csv_lines::push_number;
use itoa::write_digits;
use reports::Message;
use sale_matrix::{Condition, Content};
use std::alloc::AllocError;
use tape_types::{MsgNumber, Price};

/// How many digits the dollars of the greatest price have.
const DOLLAR_DIGITS: usize = 8;

/// The word of a message's kind.
fn kind_text(message: &Message) -> &'static [u8]
    ensures { result.now ≡ kind_text message.now }
{
    match message {
        Message::Report { .. } => b"report",
        Message::Cancel { .. } => b"cancel",
        Message::Correct { .. } => b"correct",
        Message::Reinstate { .. } => b"reinstate",
    }
}

/// Returns the digit of a number at the place of this power of ten.
fn digit_at(unit: u64, number: u64) -> u8
    requires { 0 < unit }
    ensures { result ≡ digit_at unit number }
{
    b'0' + (number / unit % 10) as u8
}

/// Adds a price as a field of a record: dollars with two decimals if it is whole cents, and with four otherwise.
#[tactic(auto, unfolding(crate::specs::Writing::price_text, crate::specs::Writing::decimals_text))]
pub fn push_price(row: &mut ByteRecord, price: Price) -> Result<(), AllocError>
    requires { partial_of row.old ≡ [] }
    ensures fields { OnOk result (fields_of row.new ≡ fields_of row.old ++ price_text price ∷ []) }
    ensures partial { OnOk result (partial_of row.new ≡ []) }
{
    let part = price.value() % DOLLAR;
    let mut text = [
        b'0',
        b'0',
        b'0',
        b'0',
        b'0',
        b'0',
        b'0',
        b'0',
        b'.',
        digit_at(1000, part),
        digit_at(100, part),
        digit_at(10, part),
        digit_at(1, part),
    ];
    let start = write_digits(price.value() / DOLLAR, &mut text, DOLLAR_DIGITS);
    if part % 100 == 0 {
        row.push_field(&text[start..11])
    } else {
        row.push_field(&text[start..])
    }
}

/// Returns a code as a table writes it, with `_` for a blank.
fn code_byte(code: u8) -> u8
    ensures { result ≡ code_byte code }
{
    if code == b' ' { b'_' } else { code }
}

/// Adds a condition with `_` for each blank.
fn push_condition(row: &mut ByteRecord, condition: Condition) -> Result<(), AllocError>
    requires { partial_of row.old ≡ [] }
    ensures fields { OnOk result (fields_of row.new ≡ fields_of row.old ++ condition_text condition ∷ []) }
    ensures partial { OnOk result (partial_of row.new ≡ []) }
{
    let [first, second, third, fourth] = condition.value();
    row.push_field(&[
        code_byte(first),
        code_byte(second),
        code_byte(third),
        code_byte(fourth),
    ])
}

/// Adds the number of the report that a message names, or an empty field.
fn push_target(row: &mut ByteRecord, target: Option<MsgNumber>) -> Result<(), AllocError>
    requires { partial_of row.old ≡ [] }
    ensures fields { OnOk result (fields_of row.new ≡ fields_of row.old ++ text_or_none decimal target ∷ []) }
    ensures partial { OnOk result (partial_of row.new ≡ []) }
{
    match target {
        Some(target) => push_number(row, u64::from(target.value())),
        None => row.push_field(b""),
    }
}

/// Adds the price, the size and the condition as fields of a record, or three empty fields.
pub fn push_content(row: &mut ByteRecord, content: Option<Content>) -> Result<(), AllocError>
    requires { partial_of row.old ≡ [] }
    ensures fields { OnOk result (fields_of row.new ≡ fields_of row.old ++ (
        text_or_none (λ content. price_text content.price) content
        ∷ text_or_none (λ content. decimal content.size) content
        ∷ text_or_none (λ content. condition_text content.condition) content ∷ [])) }
    ensures partial { OnOk result (partial_of row.new ≡ []) }
{
    match content {
        Some(content) => {
            push_price(row, content.price)?;
            push_number(row, u64::from(content.size.value()))?;
            push_condition(row, content.condition)
        }
        None => {
            row.push_field(b"")?;
            row.push_field(b"")?;
            row.push_field(b"")
        }
    }
}

/// Adds the fields that every row begins with, up to the target.
#[tactic(auto, unfolding(crate::specs::Writing::row_of))]
fn push_header(row: &mut ByteRecord, message: &Message) -> Result<(), AllocError>
    requires { partial_of row.old ≡ [] }
    ensures fields { OnOk result (fields_of row.new ≡ fields_of row.old ++ header_fields (row_of message.now)) }
    ensures partial { OnOk result (partial_of row.new ≡ []) }
{
    let header = message.header();
    row.push_field(kind_text(message))?;
    row.push_field(&[header.participant.value()])?;
    push_number(row, u64::from(header.number.value()))?;
    push_number(row, header.moment.value())?;
    row.push_field(header.symbol.name())
}

/// Adds the nine fields of a message's row, in the order of the columns. If memory runs out, some of them may have been added.
#[tactic(auto, unfolding(crate::specs::Writing::row_of))]
pub fn push_row(row: &mut ByteRecord, message: &Message) -> Result<(), AllocError>
    requires { partial_of row.old ≡ [] }
    ensures fields { OnOk result (fields_of row.new ≡ fields_of row.old ++ row_fields (row_of message.now)) }
    ensures partial { OnOk result (partial_of row.new ≡ []) }
{
    push_header(row, message)?;
    push_target(row, message.target())?;
    push_content(row, message.content())
}

/// Replaces the fields of a record with those of a message's row, so that one record serves many messages.
pub fn write_row(message: &Message, row: &mut ByteRecord) -> Result<(), AllocError>
    ensures fields { OnOk result (fields_of row.new ≡ row_fields (row_of message.now)) }
{
    row.clear();
    push_row(row, message)
}

/// The row of every message reads back as that message.
pub fn row_round_trip()
    ensures holds { RowRoundTrip }
{}
