//! A day of the symbols AB and CD and the participants N and Q, its messages, and its tape.

use reports::{Content, Header, Message, Moment};
use sale_matrix::{Condition, Matrix};
use std::alloc::Global;
use tape_core::{IndexedTape, Tape};
use tape_types::{Listing, MsgNumber, Participant, Price, Size, Symbol};

pub(super) const AB: [u8; 8] = *b"AB      ";

pub(super) const CD: [u8; 8] = *b"CD      ";

/// How many messages the day has.
pub(super) const MESSAGES: u32 = 60;

pub(super) fn listing(alloc: Global) -> Option<Listing> {
    let symbols = [Symbol::try_new(AB)?, Symbol::try_new(CD)?];
    let participants = [Participant::try_new(b'N')?, Participant::try_new(b'Q')?];
    Listing::new(alloc, &symbols, &participants).ok()
}

fn header(who: u8, number: u32, symbol: [u8; 8]) -> Option<Header> {
    Some(Header {
        participant: Participant::try_new(who)?,
        number: MsgNumber::try_new(number)?,
        moment: Moment::new(0),
        symbol: Symbol::try_new(symbol)?,
    })
}

/// A trade of a hundred shares, whose condition and price differ from one number to the next.
pub(super) fn content(number: u32) -> Option<Content> {
    let condition = match number % 4 {
        0 => *b"@   ",
        1 => *b"@ L ",
        2 => *b"@ Z ",
        _ => *b"@  I",
    };
    Some(Content {
        price: Price::try_new(100_000 + u64::from(number % 7))?,
        size: Size::try_new(100)?,
        condition: Condition::try_new(condition)?,
    })
}

/// N's report of AB with this number.
pub(super) fn report(number: u32) -> Option<Message> {
    Some(Message::Report {
        header: header(b'N', number, AB)?,
        content: content(number)?,
    })
}

/// The message at an index of the day. Of each five in a row the first two are reports, the third corrects the first, the
/// fourth cancels the second, and the fifth reinstates it. So a list of entries that grows at 4, 8, 16 and 32 does so at a
/// reinstatement, a cancel, a report and a correction. N and Q, and AB and CD, take turns by fives.
pub(super) fn message(index: u32) -> Option<Message> {
    let turn = index / 5;
    let who = if turn % 2 == 0 { b'N' } else { b'Q' };
    let symbol = if turn % 4 < 2 { AB } else { CD };
    let header = header(who, index.checked_add(1)?, symbol)?;
    Some(match index % 5 {
        2 => Message::Correct {
            header,
            target: MsgNumber::try_new(index.checked_sub(1)?)?,
            content: content(index)?,
        },
        3 => Message::Cancel {
            header,
            target: MsgNumber::try_new(index.checked_sub(1)?)?,
        },
        4 => Message::Reinstate {
            header,
            target: MsgNumber::try_new(index.checked_sub(2)?)?,
        },
        _ => Message::Report {
            header,
            content: content(index)?,
        },
    })
}

/// Admits the day's messages, and returns whether the tape took them all.
fn admits_all(tape: &mut IndexedTape) -> bool {
    for index in 0..MESSAGES {
        let Some(message) = message(index) else {
            return false;
        };
        if tape.admit(message).is_err() {
            return false;
        }
    }
    true
}

/// An empty tape of the day.
pub(super) fn empty_tape(alloc: Global) -> Option<IndexedTape> {
    Tape::new(alloc, listing(alloc)?, MESSAGES, Matrix::One).ok()
}

/// The day's tape.
pub(super) fn tape(alloc: Global) -> Option<IndexedTape> {
    let mut tape = empty_tape(alloc)?;
    admits_all(&mut tape).then_some(tape)
}
