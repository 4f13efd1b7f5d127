//! Reads a message from a row, or finds its first fault in the order of the columns.
ghost use Rattle.std.specs.Prelude.{◌≡◌};
ghost use Rattle.tape_types.specs.Ranges.{NUMBER_MOST, SIZE_MOST};
ghost use Rattle.csv_messages.specs.Numbers.{number_within};
ghost use Rattle.csv_messages.specs.RowTexts.{text_of_row};
ghost use Rattle.csv_messages.specs.Rows.{field, row_content, row_header, row_message, row_message_of, row_no_content, row_target, unused};
ghost use Rattle.csv_messages.specs.Texts.{moment_of};

use crate::condition::condition_of;
use crate::named::participant_of;
use crate::number::number_within;
use crate::price::price_of;
use crate::{Column, FaultText, Kind, RowFault, TableRow};
use reports::{Header, Message, Moment};
use sale_matrix::Content;
use tape_types::{MsgNumber, SIZE_MOST, Size, Symbol};

/// Returns the value of a field, or the fault of a text that writes none.
fn field<T: Copy>(column: Column, text: &[u8], value: Option<T>) -> Result<T, RowFault>
    ensures { result ≡ field column text.now value }
{
    match value {
        Some(value) => Ok(value),
        None => Err(RowFault::Bad(column, FaultText::new(text))),
    }
}

/// Reads a message number, 1 or above.
#[tactic(auto, unfolding(crate::specs::Numbers::number_within))]
fn message_number(text: &[u8]) -> Option<MsgNumber>
    ensures { result ≡ number_within 1 NUMBER_MOST text.now }
{
    let number = number_within(1, u64::from(u32::MAX), text)?;
    MsgNumber::try_new(number as u32)
}

/// Reads a number of shares.
#[tactic(auto, unfolding(crate::specs::Numbers::number_within))]
fn size(text: &[u8]) -> Option<Size>
    ensures { result ≡ number_within 1 SIZE_MOST text.now }
{
    let size = number_within(1, u64::from(SIZE_MOST), text)?;
    Size::try_new(size as u32)
}

/// Reads a moment: a number, or nothing for 0.
fn moment_of(text: &[u8]) -> Option<Moment>
    ensures { result ≡ moment_of text.now }
{
    if text.is_empty() {
        return Some(Moment::new(0));
    }
    let moment = number_within(0, u64::MAX, text)?;
    Some(Moment::new(moment))
}

/// Checks a field that has to be empty.
#[tactic(auto, unfolding(crate::specs::Rows::unused))]
fn unused(column: Column, text: &[u8]) -> Result<(), RowFault>
    ensures { result ≡ unused column text.now }
{
    if text.is_empty() {
        Ok(())
    } else {
        Err(RowFault::Unused(column, FaultText::new(text)))
    }
}

/// Reads the fields that every row begins with.
#[tactic(auto, unfolding(crate::specs::Rows::row_header))]
fn header(row: &TableRow) -> Result<Header, RowFault>
    ensures { result ≡ row_header (text_of_row row.now) }
{
    let participant = field(
        Column::Participant,
        row.participant,
        participant_of(row.participant),
    )?;
    let number = field(Column::Number, row.number, message_number(row.number))?;
    let moment = field(Column::Moment, row.moment, moment_of(row.moment))?;
    let symbol = field(Column::Symbol, row.symbol, Symbol::of_name(row.symbol))?;
    Ok(Header {
        participant,
        number,
        moment,
        symbol,
    })
}

/// Reads the number of the report that the message names.
#[tactic(auto, unfolding(crate::specs::Rows::row_target))]
fn target(row: &TableRow) -> Result<MsgNumber, RowFault>
    ensures { result ≡ row_target (text_of_row row.now) }
{
    field(Column::Target, row.target, message_number(row.target))
}

/// Reads the price, the size and the condition.
#[tactic(auto, unfolding(crate::specs::Rows::row_content))]
fn content(row: &TableRow) -> Result<Content, RowFault>
    ensures { result ≡ row_content (text_of_row row.now) }
{
    let price = field(Column::Price, row.price, price_of(row.price))?;
    let size = field(Column::Size, row.size, size(row.size))?;
    let condition = field(
        Column::Condition,
        row.condition,
        condition_of(row.condition),
    )?;
    Ok(Content {
        price,
        size,
        condition,
    })
}

/// Checks that price, size and condition are empty.
#[tactic(auto, unfolding(crate::specs::Rows::row_no_content))]
fn no_content(row: &TableRow) -> Result<(), RowFault>
    ensures { result ≡ row_no_content (text_of_row row.now) }
{
    unused(Column::Price, row.price)?;
    unused(Column::Size, row.size)?;
    unused(Column::Condition, row.condition)
}

/// Reads the message of a row of this kind.
#[tactic(auto, unfolding(crate::specs::Rows::row_message_of))]
fn message_of(kind: Kind, row: &TableRow) -> Result<Message, RowFault>
    ensures { result ≡ row_message_of kind (text_of_row row.now) }
{
    let header = header(row)?;
    match kind {
        Kind::Report => {
            unused(Column::Target, row.target)?;
            let content = content(row)?;
            Ok(Message::Report { header, content })
        }
        Kind::Cancel => {
            let target = target(row)?;
            no_content(row)?;
            Ok(Message::Cancel { header, target })
        }
        Kind::Correct => {
            let target = target(row)?;
            let content = content(row)?;
            Ok(Message::Correct {
                header,
                target,
                content,
            })
        }
        Kind::Reinstate => {
            let target = target(row)?;
            no_content(row)?;
            Ok(Message::Reinstate { header, target })
        }
    }
}

/// Reads the message that a row spells, or returns the first fault in the order of the columns.
#[tactic(auto, unfolding(crate::specs::Rows::row_message))]
pub fn read_row(row: &TableRow) -> Result<Message, RowFault>
    ensures exact { result ≡ row_message (text_of_row row.now) }
{
    let kind = field(Column::Kind, row.kind, Kind::of_text(row.kind))?;
    message_of(kind, row)
}
