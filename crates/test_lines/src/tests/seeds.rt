//! Tests a seeded day of eight lines at once: as many messages are admitted as in any order of the lines, each line has the
//! figures of its participant, all entries are published, found and confirmed, and the lines' gate gets each turn.
ghost use Rattle.std.specs.Prelude.{◌≡◌, ◌≤◌, ◌<◌};
ghost use Rattle.line_ledger.specs.Cells.{FirstTokens};
ghost use Rattle.line_ledger.specs.Days.{terms_of};

use super::days::{Confirmed, confirmed, ended_day};
use super::lines::{LineFigures, run_inputs};
use super::messages::put;
use super::together::Meeting;
use line_ledger::{Day, DayName, LineSeat, Prepared, Published, SharedTape, Sighting, prepare};
use participant_lines::LineOutcome;
use reports::{Content, Header, Message, Moment};
use sale_matrix::{Condition, Matrix};
use std::alloc::Global;
use std::marker::Brand;
use std::process::Abort;
use std::sync::Wait;
use std::thread::Threads;
use tape_core::{IndexedTape, Tape};
use tape_frames::Source;
use tape_types::{Listing, MsgNumber, Participant, Price, Size, Symbol};

/// How many lines the day has.
const LINES: u32 = 8;

/// How many messages each line sends.
const MESSAGES: u32 = 17_000;

/// How many of the messages are admitted, whatever the lines' order.
const ENTRIES: u32 = 101_898;

/// How many entries a publication sets at most.
const MOST: u32 = 1_000;

/// How many symbols the day has.
const SYMBOLS: u32 = 20;

/// The conditions of the reports: regular, odd lot, sold last, out of sequence, and official close.
const CONDITIONS: [&[u8; 4]; 5] = [b"@   ", b"@  I", b"@ L ", b"@ Z ", b"@  M"];

/// Numbers that look random, the same from the same seed.
#[derive(Drop)]
struct Dice {
    state: u64,
}

impl Dice {
    /// A number below `bound`.
    fn below(&mut self, bound: u32) -> u32
        requires { 1 ≤ bound }
        ensures { result < bound }
    {
        self.state = self
            .state
            .wrapping_mul(6_364_136_223_846_793_005)
            .wrapping_add(1_442_695_040_888_963_407);
        (self.state / 8_589_934_592 % u64::from(bound)) as u32
    }

    /// A price, a size and a condition.
    fn content(&mut self) -> Option<Content> {
        let price = 100_000 + u64::from(self.below(500));
        let size = 1 + self.below(300);
        let condition = CONDITIONS[self.below(5) as usize];
        Some(Content {
            price: Price::try_new(price)?,
            size: Size::try_new(size)?,
            condition: Condition::try_new(*condition)?,
        })
    }

    /// The message of a participant in its turn: three in ten cancel, correct or reinstate one of its earlier messages, which
    /// may not be a report or not be in a fitting state, and one in ten has the number of the turn before.
    fn message(&mut self, who: Participant, turn: u32) -> Option<Message>
        requires { 1 ≤ turn }
    {
        let target = 1 + self.below(turn);
        match self.below(10) {
            0 => Some(Message::Cancel {
                header: header(who, turn, target)?,
                target: MsgNumber::try_new(target)?,
            }),
            1 => Some(Message::Correct {
                header: header(who, turn, target)?,
                target: MsgNumber::try_new(target)?,
                content: self.content()?,
            }),
            2 => self.report(who, turn.saturating_sub(1).max(1)),
            3 => Some(Message::Reinstate {
                header: header(who, turn, target)?,
                target: MsgNumber::try_new(target)?,
            }),
            _ => self.report(who, turn),
        }
    }

    /// A report of a participant with this number.
    fn report(&mut self, who: Participant, number: u32) -> Option<Message> {
        Some(Message::Report {
            header: header(who, number, number)?,
            content: self.content()?,
        })
    }
}

/// The symbol at a place in the listing, or the one as many places further on.
fn symbol(place: u32) -> Option<Symbol> {
    let mut name = *b"A       ";
    name[0] = b'A' + (place % SYMBOLS) as u8;
    Symbol::try_new(name)
}

/// The participant of a line.
fn participant(line: u32) -> Option<Participant> {
    Participant::try_new(b'A' + (line % LINES) as u8)
}

/// The header of a message with this number, of the symbol that a report has under another number.
fn header(who: Participant, number: u32, report: u32) -> Option<Header> {
    Some(Header {
        participant: who,
        number: MsgNumber::try_new(number)?,
        moment: Moment::new(0),
        symbol: symbol(report)?,
    })
}

/// The bytes of a line's messages.
fn line_bytes(alloc: Global, line: u32) -> Option<Vec<u8>> {
    let who = participant(line)?;
    let mut dice = Dice {
        state: u64::from(line),
    };
    let mut bytes = Vec::new(alloc);
    for turn in 1..=MESSAGES {
        put(&mut bytes, dice.message(who, turn))?;
    }
    Some(bytes)
}

/// The bytes of all lines.
fn inputs(alloc: Global) -> Option<Vec<Vec<u8>>> {
    let mut inputs = Vec::new(alloc);
    for line in 0..LINES {
        inputs.push(line_bytes(alloc, line)?).ok()?;
    }
    Some(inputs)
}

/// The day's symbols.
fn symbols(alloc: Global) -> Option<Vec<Symbol>> {
    let mut symbols = Vec::new(alloc);
    for place in 0..SYMBOLS {
        symbols.push(symbol(place)?).ok()?;
    }
    Some(symbols)
}

/// The participants of the lines.
fn participants(alloc: Global) -> Option<Vec<Participant>> {
    let mut participants = Vec::new(alloc);
    for line in 0..LINES {
        participants.push(participant(line)?).ok()?;
    }
    Some(participants)
}

/// The symbols and participants of the day.
fn listing(alloc: Global) -> Option<Listing> {
    let symbols = symbols(alloc)?;
    let participants = participants(alloc)?;
    Listing::new(alloc, &symbols, &participants).ok()
}

/// The day's tape, which is empty.
fn empty_tape(alloc: Global) -> Option<IndexedTape> {
    Tape::new(alloc, listing(alloc)?, LINES * MESSAGES, Matrix::One).ok()
}

/// The day, which is empty.
fn empty_day(alloc: Global) -> Option<Prepared> {
    prepare(alloc, empty_tape(alloc)?).ok()
}

/// Whether a line's figures are those of the tape: it ended with its input, each message was admitted or refused, and
/// count, sizes and last number are its participant's.
fn is_line_of(tape: &IndexedTape, who: Participant, line: &LineFigures) -> bool {
    line.ended == LineOutcome::Clean
        && u64::from(line.count) + u64::from(line.refused) == u64::from(MESSAGES)
        && tape.count_of(who) == line.count
        && tape.sizes_of(who) == line.sizes
        && tape.last_of(who) == line.last
}

/// Whether each line has the tape's figures for its participant.
fn are_all_lines_of(tape: &IndexedTape, lines: &[LineFigures]) -> Option<bool> {
    for line in 0..LINES {
        if !is_line_of(tape, participant(line)?, lines.get(line as usize)?) {
            return Some(false);
        }
    }
    Some(true)
}

/// How many entries were set by publications until one set none. `None` if one failed.
fn publish_all<D: DayName, W: Wait>(rt: &W, shared: &SharedTape<D>) -> Option<u32> {
    let mut all: u32 = 0;
    for _ in 0..=LINES * MESSAGES {
        let set = shared.publish(rt, MOST).ok()?;
        if set == 0 {
            return Some(all);
        }
        all = all.saturating_add(set);
    }
    None
}

/// How many entries the first line's view of the first symbol shows.
fn shown<D: DayName, W: Wait>(
    rt: &W,
    shared: &SharedTape<D>,
    seats: &[LineSeat<D>],
) -> Option<u32> {
    let view = shared.view(rt, seats.first()?, symbol(0)?).ok()?;
    Some(view.count())
}

/// How many entries a view shows, how many were published, how many a source then finds at once, and whether the cell of the
/// last entry and the one after it show one.
type Found = (Option<u32>, Option<u32>, u32, bool, bool);

/// Returns what is shown, published and found, and a token for each entry.
fn found<D: DayName, W: Wait>(
    rt: &W,
    shared: &SharedTape<D>,
    seats: &[LineSeat<D>],
) -> (Found, Vec<Sighting>)
    ensures { FirstTokens shared.now result.1.items }
{
    let shown = shown(rt, shared, seats);
    let set = publish_all(rt, shared);
    let mut published = Published::new(shared);
    let _ = published.refresh();
    let many = published.published();
    let last = shared.look(ENTRIES).is_some();
    let is_beyond = shared.look(ENTRIES + 1).is_some();
    (
        (shown, set, many, last, is_beyond),
        published.into_sightings(),
    )
}

/// Returns the ended day, and what it confirms.
fn confirmed_day<D: DayName, A: Abort>(
    rt: &A,
    shared: SharedTape<D>,
    seats: Vec<LineSeat<D>>,
    tokens: &Vec<Sighting>,
) -> Option<(Day, Confirmed)>
    requires { FirstTokens shared tokens.now.items }
{
    let day = ended_day(rt, shared, seats)?;
    let confirmed = confirmed(&day, tokens);
    Some((day, confirmed))
}

/// What was published and found of a day, and the outcomes of its lines, with the day and what it confirms.
type DayOfLines = (Found, Option<(Vec<LineFigures>, (Day, Confirmed))>);

/// Returns the same for lines over these bytes.
fn lines_of_a_day<D: DayName + Send + Sync, T: Threads + Wait + Abort + Sync>(
    rt: &T,
    alloc: Global,
    prepared: Prepared,
    inputs: &[Vec<u8>],
    meeting: &Meeting,
) -> Option<DayOfLines>
    requires name { prepared.blank.name ≡ D.name }
    requires parts { prepared.blank.parts ≡ D.parts }
    requires terms { terms_of prepared.tape ≡ D.terms }
{
    let Ok((shared, seats)) = SharedTape::<D>::open(prepared) else {
        return None;
    };
    let (seats, ran) = run_inputs(rt, alloc, &shared, seats, inputs, meeting);
    let (found, tokens) = found(rt, &shared, seats.as_slice());
    let ended = confirmed_day(rt, shared, seats, &tokens);
    Some((found, ran.ok().zip(ended)))
}

fn lines_of_prepared<T: Threads + Wait + Abort + Sync>(
    rt: &T,
    alloc: Global,
    prepared: Prepared,
    inputs: &[Vec<u8>],
    meeting: &Meeting,
) -> Option<DayOfLines> {
    lines_of_a_day::<Brand, T>(rt, alloc, prepared, inputs, meeting)
}

/// Returns the outcomes of eight lines at once, and the day that they made.
fn day_of_eight<T: Threads + Wait + Abort + Sync>(
    rt: &T,
    alloc: Global,
    meeting: &Meeting,
) -> Option<DayOfLines> {
    let inputs = inputs(alloc)?;
    lines_of_prepared(rt, alloc, empty_day(alloc)?, &inputs, meeting)
}

/// Whether each line has the figures of its participant, and how many of all messages are on the tape.
type Compared = (Option<bool>, usize);

/// The same for eight lines at once, with what was published, found and confirmed.
fn eight_lines<T: Threads + Wait + Abort + Sync>(
    rt: &T,
    alloc: Global,
    meeting: &Meeting,
) -> Option<(Found, Confirmed, Compared)> {
    let (found, ended) = day_of_eight(rt, alloc, meeting)?;
    let (lines, (day, confirmed)) = ended?;
    let are_all = are_all_lines_of(day.tape(), &lines);
    Some((found, confirmed, (are_all, day.tape().entries().len())))
}

#[test]
fn eight_lines_make_one_tape(rt: HostRuntime) {
    let meeting = Meeting::of(LINES);
    let many = ENTRIES as usize;
    let found = (Some(ENTRIES), Some(ENTRIES), ENTRIES, true, false);
    let compared = (Some(true), many);
    assert_eq!(rt;
        eight_lines(&rt, rt.alloc(), &meeting),
        Some((found, (many, ENTRIES, many), compared))
    );
    assert_eq!(rt; meeting.noted(), (LINES, [MESSAGES; 3]));
}
