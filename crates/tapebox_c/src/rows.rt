//! The fixed structs of numbers that cross to another language by value.
ghost use Rattle.std.specs.Prelude.{◌≡◌};
ghost use Rattle.tapebox_c.specs.Rows.{mark_row, summary_row, answer_row, empty_summary_row, IsEntryRow};
ghost use Rattle.tapebox_c.specs.Feeds.{taken_row};

use arbitration::Taken;
use reports::{LONGEST_MESSAGE, encode_into};
use scratch_fold::{Mark, Summary};
use tape_core::Entry;
use tape_frames::{LONGEST_PACKET, REQUEST_LENGTH};

/// A report that a summary names. All three fields are 0 if there is none.
#[repr(C)]
#[derive(Clone, Copy)]
pub struct MarkRow {
    /// The price, in ten-thousandths of a dollar.
    pub price: u64,
    /// The tape number of the report's admission.
    pub place: u32,
    /// The letter of the participant that reported it.
    pub who: u32,
}

/// The figures of a symbol.
#[repr(C)]
#[derive(Clone, Copy)]
pub struct SummaryRow {
    /// The report that first set the last.
    pub opening: MarkRow,
    /// The highest report.
    pub high: MarkRow,
    /// The lowest report.
    pub low: MarkRow,
    /// The last report.
    pub last: MarkRow,
    /// The shares that count.
    pub volume: u64,
    /// How many reports stand.
    pub trades: u64,
}

/// The result of an admission.
#[repr(C)]
#[derive(Clone, Copy)]
pub struct AnswerRow {
    /// The tape number of the message.
    pub number: u32,
    /// 1 if the entry carries its symbol's summary, else 0.
    pub carries: u32,
    /// The summary that the entry carries, or zeros.
    pub after: SummaryRow,
}

/// An entry of a tape.
#[repr(C)]
#[derive(Clone, Copy)]
pub struct EntryRow {
    /// Its number, and what it carries.
    pub answer: AnswerRow,
    /// How many bytes its message has.
    pub len: u32,
    /// The message's bytes, and zeros after them.
    pub message: [u8; LONGEST_MESSAGE],
}

/// The fields of a message. Its kind is one of the letters `R`, `X`, `C` and `S`.
#[repr(C)]
#[derive(Clone, Copy)]
pub struct FieldsRow {
    /// When it was sent, as the participant says.
    pub moment: u64,
    /// The price of a report or a correction, in ten-thousandths of a dollar.
    pub price: u64,
    /// The participant's number.
    pub number: u32,
    /// The number that a cancel, a correction or a reinstatement names.
    pub target: u32,
    /// The shares of a report or a correction.
    pub size: u32,
    /// The letter of the kind.
    pub kind: u8,
    /// The participant's letter.
    pub participant: u8,
    /// The sale condition of a report or a correction.
    pub condition: [u8; 4],
    /// The symbol's name, with spaces to the end.
    pub symbol: [u8; 8],
}

/// A message.
#[repr(C)]
#[derive(Clone, Copy)]
pub struct MessageRow {
    /// How many bytes it has.
    pub len: u32,
    /// Its bytes, and zeros after them.
    pub bytes: [u8; LONGEST_MESSAGE],
}

/// What became of the entries of a packet.
#[repr(C)]
#[derive(Clone, Copy)]
pub struct TakenRow {
    /// Entries that were new.
    pub fresh: u32,
    /// Entries that were known.
    pub repeated: u32,
    /// Entries too far ahead to be kept.
    pub beyond: u32,
    /// The entry of which another is known, if the packet was refused for it, else 0.
    pub conflict: u32,
}

/// A request for what is missing.
#[repr(C)]
#[derive(Clone, Copy)]
pub struct RequestRow {
    /// How many entries it asks for, 0 if none is missing.
    pub count: u32,
    /// Its bytes, if something is missing.
    pub bytes: [u8; REQUEST_LENGTH],
}

/// What a subscriber knows of the feed.
#[repr(C)]
#[derive(Clone, Copy)]
pub struct NewsRow {
    /// How many entries it holds.
    pub held: u32,
    /// The greatest number that was announced.
    pub announced: u32,
    /// 1 if the tape's end is known, else 0.
    pub is_ended: u32,
    /// How many entries the whole tape has, if its end is known.
    pub ended: u32,
    /// The entries that line A was the first to bring.
    pub brought_a: u32,
    /// The entries that line B was the first to bring.
    pub brought_b: u32,
    /// The entries that the retransmission was the first to bring.
    pub brought_r: u32,
}

/// A packet.
#[repr(C)]
#[derive(Clone, Copy)]
pub struct PacketRow {
    /// How many bytes it has.
    pub len: u32,
    /// Its bytes, and zeros after them.
    pub bytes: [u8; LONGEST_PACKET],
}

/// What a packet holds besides its entries.
#[repr(C)]
#[derive(Clone, Copy)]
pub struct PacketFieldsRow {
    /// The session under which it is sent.
    pub session: u64,
    /// The number of its first entry, or the one that it announces if it has none.
    pub number: u32,
    /// How many entries it has.
    pub count: u32,
    /// Its version, 1 or 2.
    pub version: u8,
    /// The letter of its kind: `D`, `H` or `E`.
    pub kind: u8,
}

/// What a request asks for.
#[repr(C)]
#[derive(Clone, Copy)]
pub struct RequestFieldsRow {
    /// The session under which the tape is sent.
    pub session: u64,
    /// The number of the first entry.
    pub from: u32,
    /// How many entries.
    pub count: u32,
}

/// The result of reading an answer to a request.
#[repr(C)]
#[derive(Clone, Copy)]
pub struct ReplyRow {
    /// How many packets it has.
    pub packets: usize,
    /// How many bytes were read of it.
    pub taken: usize,
    /// The number of the refusal, or 0.
    pub refusal: u32,
}

/// How far messages were admitted.
#[repr(C)]
#[derive(Clone, Copy)]
pub struct ManyRow {
    /// How many messages were answered.
    pub answered: usize,
    /// How many bytes they have.
    pub taken: usize,
}

/// What a participant has sent.
#[repr(C)]
#[derive(Clone, Copy)]
pub struct TotalsRow {
    /// The shares of its reports, each as it was first reported, added up.
    pub shares: u64,
    /// How many of its messages the tape has, of every kind.
    pub messages: u32,
    /// Its greatest number.
    pub last: u32,
}

/// The name of a symbol.
#[repr(C)]
#[derive(Clone, Copy)]
pub struct NameRow {
    /// Its bytes, with spaces to the end.
    pub bytes: [u8; 8],
}

/// Which figures a sale condition changes, each by a letter of the matrix.
#[repr(C)]
#[derive(Clone, Copy)]
pub struct CellsRow {
    /// The consolidated high and low.
    pub high_low: u8,
    /// The consolidated last.
    pub last: u8,
    /// The participant's own high and low.
    pub own_high_low: u8,
    /// The participant's own last.
    pub own_last: u8,
    /// The volume.
    pub volume: u8,
}

/// What became of a packet's entries, as a row.
pub(crate) fn taken_row(taken: &Taken) -> TakenRow
    ensures { result ≡ taken_row taken.now }
{
    TakenRow {
        fresh: taken.fresh,
        repeated: taken.repeated,
        beyond: taken.beyond,
        conflict: 0,
    }
}

/// A mark as a row.
fn mark_row(mark: &Option<Mark>) -> MarkRow
    ensures { result ≡ mark_row mark.now }
{
    match mark {
        None => MarkRow {
            price: 0,
            place: 0,
            who: 0,
        },
        Some(mark) => MarkRow {
            price: mark.price.value(),
            place: mark.place.value(),
            who: u32::from(mark.who.value()),
        },
    }
}

/// A summary as a row.
pub(crate) fn summary_row(summary: &Summary) -> SummaryRow
    ensures { result ≡ summary_row summary.now }
{
    SummaryRow {
        opening: mark_row(&summary.opening),
        high: mark_row(&summary.high),
        low: mark_row(&summary.low),
        last: mark_row(&summary.last),
        volume: summary.volume,
        trades: u64::from(summary.trades),
    }
}

/// The row of no summary.
fn empty_summary_row() -> SummaryRow
    ensures { result ≡ empty_summary_row }
{
    let none = MarkRow {
        price: 0,
        place: 0,
        who: 0,
    };
    SummaryRow {
        opening: none,
        high: none,
        low: none,
        last: none,
        volume: 0,
        trades: 0,
    }
}

/// The row of an entry's answer.
pub(crate) fn answer_row(entry: &Entry) -> AnswerRow
    ensures { result ≡ answer_row entry.now }
{
    match &entry.after {
        None => AnswerRow {
            number: entry.number.value(),
            carries: 0,
            after: empty_summary_row(),
        },
        Some(after) => AnswerRow {
            number: entry.number.value(),
            carries: 1,
            after: summary_row(after),
        },
    }
}

/// An entry as a row.
pub(crate) fn entry_row(entry: &Entry) -> EntryRow
    ensures { IsEntryRow entry.now result }
{
    let mut message = [0; LONGEST_MESSAGE];
    let len = encode_into(&entry.message, &mut message);
    EntryRow {
        answer: answer_row(entry),
        len: len as u32,
        message,
    }
}
