//! A tape that is sent, the bytes of its packets, its subscriber, and the text of a batch.

use reports::{Content, Header, Message, Moment};
use sale_matrix::{Condition, Matrix};
use std::alloc::Global;
use std::test::Fail;
use subscriber::Subscriber;
use tape_core::{IndexedTape, Tape};
use tape_frames::{EntryCount, Packet, SliceSource, Version, cut, write_packet};
use tape_types::{Listing, MsgNumber, Participant, Price, Size, Symbol};

/// The session under which everything is sent.
pub(super) const SESSION: u64 = 7;

/// A tape over indexes, as the subscriber's own is.
pub(super) type Feed = IndexedTape;

pub(super) fn symbol() -> Option<Symbol> {
    Symbol::try_new(*b"AB      ")
}

pub(super) fn participant() -> Option<Participant> {
    Participant::try_new(b'N')
}

pub(super) fn listing(alloc: Global) -> Option<Listing> {
    let symbols = [symbol()?];
    let participants = [participant()?, Participant::try_new(b'Q')?];
    Listing::new(alloc, &symbols, &participants).ok()
}

fn header(number: u32) -> Option<Header> {
    Some(Header {
        participant: participant()?,
        number: MsgNumber::try_new(number)?,
        moment: Moment::new(0),
        symbol: symbol()?,
    })
}

/// A hundred shares.
fn content(price: u64) -> Option<Content> {
    Some(Content {
        price: Price::try_new(price)?,
        size: Size::try_new(100)?,
        condition: Condition::try_new(*b"@   ")?,
    })
}

pub(super) fn report(number: u32, price: u64) -> Option<Message> {
    Some(Message::Report {
        header: header(number)?,
        content: content(price)?,
    })
}

pub(super) fn cancel(number: u32, target: u32) -> Option<Message> {
    Some(Message::Cancel {
        header: header(number)?,
        target: MsgNumber::try_new(target)?,
    })
}

pub(super) fn correction(number: u32, target: u32, price: u64) -> Option<Message> {
    Some(Message::Correct {
        header: header(number)?,
        target: MsgNumber::try_new(target)?,
        content: content(price)?,
    })
}

pub(super) fn reinstatement(number: u32, target: u32) -> Option<Message> {
    Some(Message::Reinstate {
        header: header(number)?,
        target: MsgNumber::try_new(target)?,
    })
}

/// A tape of Matrix One.
pub(super) fn feed(alloc: Global, limit: u32) -> Option<Feed> {
    Tape::new(alloc, listing(alloc)?, limit, Matrix::One).ok()
}

/// Admits a message, and returns whether the tape took it.
pub(super) fn admits(tape: &mut Feed, message: Option<Message>) -> bool {
    match message {
        Some(message) => tape.admit(message).is_ok(),
        None => false,
    }
}

/// Admits reports up to a number, each `rise` hundredths of a cent above the one before.
fn admits_reports(tape: &mut Feed, count: u32, price: u64, rise: u64) -> bool {
    for number in 1..=count {
        let price = price.wrapping_add(rise.wrapping_mul(u64::from(number)));
        if !admits(tape, report(number, price)) {
            return false;
        }
    }
    true
}

/// A tape of this many reports, whose prices rise by a hundredth of a cent from one to the next.
pub(super) fn reports(alloc: Global, count: u32, price: u64) -> Option<Feed> {
    let mut tape = feed(alloc, 200_000)?;
    admits_reports(&mut tape, count, price, 1).then_some(tape)
}

/// A tape of this many reports at $10.0000.
pub(super) fn equal_reports(alloc: Global, count: u32) -> Option<Feed> {
    let mut tape = feed(alloc, 100)?;
    admits_reports(&mut tape, count, 100_000, 0).then_some(tape)
}

/// Admits corrections of report 1 up to message number 72, each a hundredth of a cent above the one before.
fn admits_corrections(tape: &mut Feed) -> bool {
    for number in 2..=72_u32 {
        let price = 100_000 + u64::from(number);
        if !admits(tape, correction(number, 1, price)) {
            return false;
        }
    }
    true
}

/// A report and 71 corrections of it.
pub(super) fn corrected_often(alloc: Global) -> Option<Feed> {
    let mut tape = reports(alloc, 1, 100_000)?;
    admits_corrections(&mut tape).then_some(tape)
}

fn bytes_of(alloc: Global, packet: &Packet) -> Option<Vec<u8>> {
    let mut text = Vec::new(alloc);
    write_packet(packet, &mut text).is_ok().then_some(text)
}

/// The packet of this version that is cut from the tape from a number on.
pub(super) fn packet_from(
    version: Version,
    tape: &Feed,
    session: u64,
    from: u32,
) -> Option<Packet> {
    if from == 0 || from as usize > tape.entries().len() || !version.can_begin(from) {
        return None;
    }
    Some(cut(version, session, from, &SliceSource::of(tape)))
}

/// Its bytes.
pub(super) fn packet(
    alloc: Global,
    version: Version,
    tape: &Feed,
    session: u64,
    from: u32,
) -> Option<Vec<u8>> {
    bytes_of(alloc, &packet_from(version, tape, session, from)?)
}

/// The bytes of a beat with this number.
pub(super) fn beat(alloc: Global, version: Version, session: u64, last: u32) -> Option<Vec<u8>> {
    let last = EntryCount::try_new(version, last)?;
    bytes_of(alloc, &Packet::Beat { session, last })
}

/// The bytes of an end with this number.
pub(super) fn end(alloc: Global, version: Version, session: u64, count: u32) -> Option<Vec<u8>> {
    let count = EntryCount::try_new(version, count)?;
    bytes_of(alloc, &Packet::End { session, count })
}

/// A subscriber of session 7 under Matrix One, with a limit.
pub(super) fn subscriber(alloc: Global, limit: u32) -> Option<Subscriber> {
    Subscriber::new(alloc, listing(alloc)?, limit, SESSION, Matrix::One).ok()
}

/// Whether the subscriber holds the whole tape, with its summaries.
pub(super) fn holds(subscriber: &Subscriber, tape: &Feed) -> Option<bool> {
    let symbol = symbol()?;
    let participant = participant()?;
    Some(
        subscriber.held() == tape.entries()
            && subscriber.summary(symbol) == tape.summary(symbol)
            && subscriber.summary_of(symbol, participant) == tape.summary_of(symbol, participant),
    )
}

/// The text of a batch of forty reports.
pub(super) fn batch_input(alloc: Global) -> Result<String, Fail> {
    let mut text = String::from_str(alloc, "AB CD\nN Q\n")?;
    for number in 1..=40_u32 {
        write!(
            text,
            "N 0026524e{number:08x}0000000000000000414220202020202000000000000186a00000006440202020\n"
        )?;
    }
    Ok(text)
}
