//! A day of the symbols AB and CD and the participants N, P and Q, and its messages.
use super::days::ended_day;
use line_ledger::{DayName, LineSeat, Prepared, SharedTape, prepare};
use reports::{Content, Header, LONGEST_MESSAGE, Message, Moment, encode_into};
use sale_matrix::{Condition, Matrix};
use std::alloc::Global;
use std::process::Abort;
use tape_core::{IndexedTape, Tape};
use tape_types::{Listing, MsgNumber, Participant, Price, Size, Symbol};

pub(super) const AB: &[u8; 8] = b"AB      ";

pub(super) const CD: &[u8; 8] = b"CD      ";

pub(super) const EF: &[u8; 8] = b"EF      ";

/// A message of a participant with a number, of the symbol AB and a hundred shares if nothing else is said.
#[derive(Clone, Copy)]
pub(super) enum Sent {
    /// A regular report at a price.
    Report(u8, u32, u64),
    /// A report with a sale condition, at a price, of this many shares.
    ReportAs(&'static [u8; 4], u8, u32, u64, u32),
    /// A regular report of another symbol.
    ReportOf(&'static [u8; 8], u8, u32),
    /// A cancel of a target.
    Cancel(u8, u32, u32),
    /// A cancel of a target with another symbol.
    CancelUnder(&'static [u8; 8], u8, u32, u32),
    /// A correction of a target to a price.
    Correct(u8, u32, u32, u64),
    /// A reinstatement of a target.
    Reinstate(u8, u32, u32),
}

fn header(who: u8, number: u32, symbol: &[u8; 8]) -> Option<Header> {
    Some(Header {
        participant: Participant::try_new(who)?,
        number: MsgNumber::try_new(number)?,
        moment: Moment::new(0),
        symbol: Symbol::try_new(*symbol)?,
    })
}

fn content(condition: &[u8; 4], price: u64, size: u32) -> Option<Content> {
    Some(Content {
        price: Price::try_new(price)?,
        size: Size::try_new(size)?,
        condition: Condition::try_new(*condition)?,
    })
}

/// A regular trade at a price.
fn regular(price: u64) -> Option<Content> {
    content(b"@   ", price, 100)
}

fn report(header: Option<Header>, content: Option<Content>) -> Option<Message> {
    Some(Message::Report {
        header: header?,
        content: content?,
    })
}

fn cancel(header: Option<Header>, target: u32) -> Option<Message> {
    Some(Message::Cancel {
        header: header?,
        target: MsgNumber::try_new(target)?,
    })
}

fn correction(header: Option<Header>, target: u32, content: Option<Content>) -> Option<Message> {
    Some(Message::Correct {
        header: header?,
        target: MsgNumber::try_new(target)?,
        content: content?,
    })
}

fn reinstatement(header: Option<Header>, target: u32) -> Option<Message> {
    Some(Message::Reinstate {
        header: header?,
        target: MsgNumber::try_new(target)?,
    })
}

pub(super) fn message(sent: Sent) -> Option<Message> {
    match sent {
        Sent::Report(who, number, price) => report(header(who, number, AB), regular(price)),
        Sent::ReportAs(condition, who, number, price, size) => {
            report(header(who, number, AB), content(condition, price, size))
        }
        Sent::ReportOf(symbol, who, number) => {
            report(header(who, number, symbol), regular(100_000))
        }
        Sent::Cancel(who, number, target) => cancel(header(who, number, AB), target),
        Sent::CancelUnder(symbol, who, number, target) => {
            cancel(header(who, number, symbol), target)
        }
        Sent::Correct(who, number, target, price) => {
            correction(header(who, number, AB), target, regular(price))
        }
        Sent::Reinstate(who, number, target) => reinstatement(header(who, number, AB), target),
    }
}

/// Appends a message's bytes, if it is one.
pub(super) fn put(bytes: &mut Vec<u8>, message: Option<Message>) -> Option<()> {
    let mut row = [0; LONGEST_MESSAGE];
    let len = encode_into(&message?, &mut row);
    bytes.extend_from_slice(row.get(..len)?).ok()
}

/// The bytes of these messages, one after the other.
pub(super) fn bytes_of(alloc: Global, sent: &[Sent]) -> Option<Vec<u8>> {
    let mut bytes = Vec::new(alloc);
    for one in sent {
        put(&mut bytes, message(*one))?;
    }
    Some(bytes)
}

/// The symbols and participants of the day.
fn listing(alloc: Global) -> Option<Listing> {
    let symbols = [Symbol::try_new(*AB)?, Symbol::try_new(*CD)?];
    let participants = [
        Participant::try_new(b'N')?,
        Participant::try_new(b'P')?,
        Participant::try_new(b'Q')?,
    ];
    Listing::new(alloc, &symbols, &participants).ok()
}

/// An open tape of the day, of at most this many entries.
pub(super) fn tape_of(alloc: Global, limit: u32) -> Option<IndexedTape> {
    Tape::new(alloc, listing(alloc)?, limit, Matrix::One).ok()
}

/// The day, of at most this many entries, which is empty.
pub(super) fn prepared_of(alloc: Global, limit: u32) -> Option<Prepared> {
    prepare(alloc, tape_of(alloc, limit)?).ok()
}

/// How many entries the ended day has. A missing seat stops the test.
pub(super) fn ended_len<D: DayName, A: Abort>(
    rt: &A,
    shared: SharedTape<D>,
    seats: Vec<LineSeat<D>>,
) -> Option<usize> {
    let day = ended_day(rt, shared, seats)?;
    let many = day.tape().entries().len();
    drop(day);
    Some(many)
}
