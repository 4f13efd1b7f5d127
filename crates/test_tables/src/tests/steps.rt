//! Runs the steps of a row: what a tape is sent or asked, and what it answers.

use reports::{Content, Header, Message, Moment};
use sale_matrix::Condition;
use scratch_fold::{Mark, Summary};
use std::alloc::Global;
use summaries::Store;
use tape_core::{Entry, Refusal, Tape};
use tape_types::{Listing, MsgNumber, Participant, Price, Size, Symbol};

pub(super) const AB: &[u8; 8] = b"AB      ";

/// What a message says.
#[derive(Clone, Copy)]
pub(super) enum Kind {
    /// A report of a hundred shares: its condition and its price.
    Report(&'static [u8; 4], u64),
    /// A cancel of a message number.
    Cancel(u32),
    /// A correction of a message number: its new condition, price and shares.
    Correct(u32, &'static [u8; 4], u64, u32),
    /// A reinstatement of a message number.
    Reinstate(u32),
}

/// The next step. Summaries are asked of AB.
#[derive(Clone, Copy)]
pub(super) enum Step {
    /// A message, by its participant's letter, its number and its symbol.
    Sends(u8, u32, &'static [u8; 8], Kind),
    /// The consolidated summary.
    Consolidated,
}

/// What the tape answers.
#[derive(Clone, Copy, PartialEq, Eq)]
pub(super) enum Told {
    /// The tape number of the entry, or the number of the refusal.
    Number(u32),
    /// A summary.
    Shows(Figures),
    /// There is no answer.
    Nothing,
}

/// A mark in plain figures: its price, its place and its participant's letter.
#[derive(Clone, Copy, PartialEq, Eq)]
pub(super) struct Point(pub(super) u64, pub(super) u32, pub(super) u8);

/// A summary in plain figures.
#[derive(Clone, Copy, PartialEq, Eq)]
pub(super) struct Figures {
    pub(super) opening: Option<Point>,
    pub(super) high: Option<Point>,
    pub(super) low: Option<Point>,
    pub(super) last: Option<Point>,
    pub(super) volume: u64,
    pub(super) trades: u32,
}

fn point_of(mark: Mark) -> Point {
    Point(mark.price.value(), mark.place.value(), mark.who.value())
}

pub(super) fn figures_of(summary: Summary) -> Figures {
    Figures {
        opening: summary.opening.map(point_of),
        high: summary.high.map(point_of),
        low: summary.low.map(point_of),
        last: summary.last.map(point_of),
        volume: summary.volume,
        trades: summary.trades,
    }
}

fn told_summary(summary: Option<Summary>) -> Told {
    match summary {
        Some(summary) => Told::Shows(figures_of(summary)),
        None => Told::Nothing,
    }
}

fn told_answer(answer: &Result<Entry, Refusal>) -> Told {
    match answer {
        Ok(entry) => Told::Number(entry.number.value()),
        Err(refusal) => Told::Number(u32::from(refusal.code())),
    }
}

fn header(who: u8, number: u32, symbol: &[u8; 8]) -> Option<Header> {
    Some(Header {
        participant: Participant::try_new(who)?,
        number: MsgNumber::try_new(number)?,
        moment: Moment::new(0),
        symbol: Symbol::try_new(*symbol)?,
    })
}

pub(super) fn content(condition: &[u8; 4], price: u64, shares: u32) -> Option<Content> {
    Some(Content {
        price: Price::try_new(price)?,
        size: Size::try_new(shares)?,
        condition: Condition::try_new(*condition)?,
    })
}

fn message(header: Header, kind: Kind) -> Option<Message> {
    Some(match kind {
        Kind::Report(condition, price) => Message::Report {
            header,
            content: content(condition, price, 100)?,
        },
        Kind::Cancel(target) => Message::Cancel {
            header,
            target: MsgNumber::try_new(target)?,
        },
        Kind::Correct(target, condition, price, shares) => Message::Correct {
            header,
            target: MsgNumber::try_new(target)?,
            content: content(condition, price, shares)?,
        },
        Kind::Reinstate(target) => Message::Reinstate {
            header,
            target: MsgNumber::try_new(target)?,
        },
    })
}

fn admits<S: Store>(tape: &mut Tape<S>, message: Option<Message>) -> Told {
    match message {
        Some(message) => told_answer(&tape.admit(message)),
        None => Told::Nothing,
    }
}

fn consolidated<S: Store>(tape: &Tape<S>) -> Option<Summary> {
    tape.summary(Symbol::try_new(*AB)?)
}

/// Returns the message that a step sends.
fn sent(who: u8, number: u32, symbol: &[u8; 8], kind: Kind) -> Option<Message> {
    message(header(who, number, symbol)?, kind)
}

/// Sends a step's message or asks for what it shows, and returns the answer.
fn take<S: Store>(tape: &mut Tape<S>, step: Step) -> Told {
    match step {
        Step::Sends(who, number, symbol, kind) => admits(tape, sent(who, number, symbol, kind)),
        Step::Consolidated => told_summary(consolidated(tape)),
    }
}

/// Takes the steps up to the first whose answer is not the expected one, and returns how many were answered as expected.
pub(super) fn told_so<S: Store>(tape: &mut Tape<S>, steps: &[(Step, Told)]) -> usize {
    for at in 0..steps.len() {
        let (step, wanted) = steps[at];
        if take(tape, step) != wanted {
            return at;
        }
    }
    steps.len()
}

/// Sends equal reports of N in AB, numbered from 1, until one is not answered by its own number, and returns how many were.
pub(super) fn fills<S: Store>(tape: &mut Tape<S>, count: u32) -> u32 {
    for before in 0..count {
        let number = before + 1;
        let step = Step::Sends(b'N', number, AB, Kind::Report(b"@   ", 100_000));
        if take(tape, step) != Told::Number(number) {
            return before;
        }
    }
    count
}

fn symbols(alloc: Global, names: &[&[u8; 8]]) -> Option<Vec<Symbol>> {
    let mut symbols = Vec::new(alloc);
    for name in names {
        symbols.push(Symbol::try_new(**name)?).ok()?;
    }
    Some(symbols)
}

/// Returns the participants of these letters.
fn participants(alloc: Global, letters: &[u8]) -> Option<Vec<Participant>> {
    let mut participants = Vec::new(alloc);
    for letter in letters {
        participants.push(Participant::try_new(*letter)?).ok()?;
    }
    Some(participants)
}

/// Returns the listing of these symbols and of the participants of these letters.
pub(super) fn listing_of(alloc: Global, names: &[&[u8; 8]], letters: &[u8]) -> Option<Listing> {
    let symbols = symbols(alloc, names)?;
    let participants = participants(alloc, letters)?;
    Listing::new(alloc, symbols.as_slice(), participants.as_slice()).ok()
}
