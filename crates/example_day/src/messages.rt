//! Builds the day's messages from plain numbers, and checks each value's range.

use anyhow::Context;
use reports::{Content, Header, Message, Moment};
use sale_matrix::Condition;
use tape_types::{MsgNumber, Participant, Price, Size, Symbol};

/// A participant's report of a regular trade, under a message number: this many shares at a price in ten-thousandths of a
/// dollar. A value out of range is an error.
pub fn report(
    symbol: Symbol,
    participant: Participant,
    number: u32,
    price: u64,
    shares: u32,
) -> anyhow::Result<Message> {
    let content = Content {
        price: Price::try_new(price).context("the price is out of range")?,
        size: Size::try_new(shares).context("the size is out of range")?,
        condition: Condition::try_new(*b"@   ").context("the condition has an unknown code")?,
    };
    let header = header(symbol, participant, number)?;
    Ok(Message::Report { header, content })
}

/// A participant's cancel, under a message number, of the report that it sent under another. A value out of range is an error.
pub fn cancel(
    symbol: Symbol,
    participant: Participant,
    number: u32,
    target: u32,
) -> anyhow::Result<Message> {
    let target = MsgNumber::try_new(target).context("the message number is out of range")?;
    let header = header(symbol, participant, number)?;
    Ok(Message::Cancel { header, target })
}

/// The header of a message sent at midnight. A number out of range is an error.
fn header(symbol: Symbol, participant: Participant, number: u32) -> anyhow::Result<Header> {
    Ok(Header {
        participant,
        number: MsgNumber::try_new(number).context("the message number is out of range")?,
        moment: Moment::new(0),
        symbol,
    })
}
