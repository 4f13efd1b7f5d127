//! What a handle holds, and what each call does to it.
ghost use Rattle.std.specs.Prelude.{◌≡◌, Some, option_copied};
ghost use Rattle.csv_days.specs.DayTexts.{text_named};
ghost use Rattle.tapebox_c.specs.Calls.{Admits, own_tape, whole_message, Closes};
ghost use Rattle.tapebox_c.specs.Exports.{count_told, entry_found, summary_found, summary_of_found};
ghost use Rattle.tapebox_c.specs.Feeds.{DeliversTo, DrainsTo, Misses, held_news};
ghost use Rattle.tapebox_c.specs.Listed.{letter_found, symbol_found, totals_found};
ghost use Rattle.tapebox_c.specs.Many.{HeldAdmits};
ghost use Rattle.tapebox_c.specs.Sending.{Makes, answer_over, cut_due};
ghost use Rattle.tapebox_c.specs.Tables.{WritesTo, text_of};

use crate::fault::CallFault;
use crate::many::admit_each;
use crate::readings::{
    answer_in, entry_in, packet_in, participant_in, summary_in, summary_of_in, symbol_in, totals_in,
};
use crate::rows::{ManyRow, NewsRow};
use crate::table::Table;
use arbitration::{Line, Taken};
use csv_days::DayText;
use reports::{Message, decode};
use sale_matrix::Matrix;
use scratch_fold::Summary;
use std::alloc::Global;
use subscriber::{DeliveryFault, DrainFault, Subscriber};
use tape_core::{Entry, Figures, IndexedTape, Refusal, Tape};
use tape_frames::{Packet, REQUEST_LENGTH, Request, Version};
use tape_types::{Participant, Symbol};

/// A tape, a subscriber with a tape of its own, a table, or why a table was not read.
#[derive(Drop)]
pub enum Held {
    /// A tape that admits messages.
    Tape(IndexedTape),
    /// A subscriber, whose tape follows a feed.
    Subscriber(Subscriber),
    /// A table that was read, with a text of it.
    Table(Table),
    /// Why a table was not read, in words.
    Words(Vec<u8>),
}

impl Held {
    /// The tape that is held, or the subscriber's own, if one of them is held.
    pub(crate) fn tape(&self) -> Option<&IndexedTape>
        ensures { option_copied result ≡ own_tape self.now }
    {
        match self {
            Held::Tape(tape) => Some(tape),
            Held::Subscriber(subscriber) => Some(subscriber.tape()),
            Held::Table(_) | Held::Words(_) => None,
        }
    }

    /// Admits the message that the bytes are.
    pub(crate) fn admit(&mut self, bytes: &[u8]) -> Result<Entry, CallFault>
        ensures { Admits self.old bytes.now result self.new }
    {
        let Held::Tape(tape) = self else {
            return Err(CallFault::NoTape);
        };
        let message = whole_message(bytes)?;
        match tape.admit(message) {
            Ok(entry) => Ok(entry),
            Err(refusal) => Err(CallFault::Refused(refusal)),
        }
    }

    /// Admits the messages of bytes, one after the other, if a tape is held.
    pub(crate) fn admit_many(&mut self, bytes: &[u8], numbers: &mut [u32]) -> Option<(ManyRow, u32)>
        ensures { HeldAdmits self.old bytes.now numbers.old numbers.new result self.new }
    {
        let Held::Tape(tape) = self else {
            return None;
        };
        Some(admit_each(tape, bytes, numbers))
    }

    /// Closes the tape.
    pub(crate) fn close(&mut self) -> Result<(), CallFault>
        ensures { Closes self.old result self.new }
    {
        let Held::Tape(tape) = self else {
            return Err(CallFault::NoTape);
        };
        tape.close();
        Ok(())
    }

    /// The consolidated summary of a symbol, by its name.
    pub(crate) fn summary(&self, name: &[u8]) -> Result<Summary, CallFault>
        ensures { result ≡ summary_found (own_tape self.now) name.now }
    {
        let Some(tape) = self.tape() else {
            return Err(CallFault::NoTape);
        };
        match summary_in(tape, name) {
            Some(summary) => Ok(summary),
            None => Err(CallFault::Refused(Refusal::UnknownSymbol)),
        }
    }

    /// A participant's own summary of a symbol, by the symbol's name.
    pub(crate) fn summary_of(&self, name: &[u8], letter: u8) -> Result<Summary, CallFault>
        ensures { result ≡ summary_of_found (own_tape self.now) name.now letter }
    {
        let Some(tape) = self.tape() else {
            return Err(CallFault::NoTape);
        };
        if let Some(summary) = summary_of_in(tape, name, letter) {
            return Ok(summary);
        }
        match summary_in(tape, name) {
            Some(_) => Err(CallFault::Refused(Refusal::UnknownParticipant)),
            None => Err(CallFault::Refused(Refusal::UnknownSymbol)),
        }
    }

    /// Takes the packet that the bytes are.
    pub(crate) fn deliver(
        &mut self,
        line: Line,
        bytes: &[u8],
    ) -> Option<Result<Taken, DeliveryFault>>
        ensures { DeliversTo self.old line bytes.now result self.new }
    {
        let Held::Subscriber(subscriber) = self else {
            return None;
        };
        Some(subscriber.deliver(line, bytes))
    }

    /// Replays what is ready, and returns how many entries were put on the tape.
    pub(crate) fn drain(&mut self) -> Option<Result<u32, DrainFault>>
        ensures { DrainsTo self.old result self.new }
    {
        let Held::Subscriber(subscriber) = self else {
            return None;
        };
        Some(subscriber.drain())
    }

    /// Returns a request for the first gap.
    pub(crate) fn missing(&self) -> Option<Option<Request>>
        ensures { Misses self.now result }
    {
        let Held::Subscriber(subscriber) = self else {
            return None;
        };
        Some(subscriber.missing())
    }

    /// What is known of the feed.
    pub(crate) fn news(&self) -> Option<NewsRow>
        ensures { result ≡ held_news self.now }
    {
        let Held::Subscriber(subscriber) = self else {
            return None;
        };
        let held = subscriber.tape().entries().len() as u32;
        let announced = subscriber.announced();
        let (is_ended, ended) = match subscriber.ended() {
            None => (0, 0),
            Some(ended) => (1, ended),
        };
        Some(NewsRow {
            held,
            announced,
            is_ended,
            ended,
            brought_a: subscriber.brought(Line::A),
            brought_b: subscriber.brought(Line::B),
            brought_r: subscriber.brought(Line::R),
        })
    }

    /// How many entries the tape has, 0 without one.
    pub(crate) fn count(&self) -> u32
        ensures { result ≡ count_told (own_tape self.now) }
    {
        match self.tape() {
            Some(tape) => tape.entries().len() as u32,
            None => 0,
        }
    }

    /// The entry of a number.
    pub(crate) fn entry(&self, number: u32) -> Result<Entry, CallFault>
        ensures { result ≡ entry_found (own_tape self.now) number }
    {
        let Some(tape) = self.tape() else {
            return Err(CallFault::NoTape);
        };
        match entry_in(tape, number) {
            Some(entry) => Ok(entry),
            None => Err(CallFault::NoEntry),
        }
    }

    /// What a participant has sent, by its letter.
    pub(crate) fn totals(&self, letter: u8) -> Result<Figures, CallFault>
        ensures { result ≡ totals_found (own_tape self.now) letter }
    {
        let Some(tape) = self.tape() else {
            return Err(CallFault::NoTape);
        };
        totals_in(tape, letter).ok_or(CallFault::Refused(Refusal::UnknownParticipant))
    }

    /// The symbol at a place of the listing.
    pub(crate) fn symbol(&self, place: u32) -> Result<Symbol, CallFault>
        ensures { result ≡ symbol_found (own_tape self.now) place }
    {
        let Some(tape) = self.tape() else {
            return Err(CallFault::NoTape);
        };
        symbol_in(tape, place).ok_or(CallFault::Refused(Refusal::UnknownSymbol))
    }

    /// The participant at a place of the listing.
    pub(crate) fn participant(&self, place: u32) -> Result<Participant, CallFault>
        ensures { result ≡ letter_found (own_tape self.now) place }
    {
        let Some(tape) = self.tape() else {
            return Err(CallFault::NoTape);
        };
        participant_in(tape, place).ok_or(CallFault::Refused(Refusal::UnknownParticipant))
    }

    /// The packet of the entries from one number on, up to another.
    pub(crate) fn cut(
        &self,
        version: Version,
        session: u64,
        from: u32,
        to: u32,
    ) -> Result<Packet, CallFault>
        ensures { result ≡ cut_due (Some version) (own_tape self.now) session from to }
    {
        let Some(tape) = self.tape() else {
            return Err(CallFault::NoTape);
        };
        packet_in(tape, version, session, from, to).ok_or(CallFault::NoEntry)
    }

    /// Returns the answer to a request.
    pub(crate) fn answer(
        &self,
        alloc: Global,
        version: Version,
        session: u64,
        request: &[u8; REQUEST_LENGTH],
    ) -> Result<Vec<u8>, CallFault>
        ensures { Makes (answer_over (Some version) (own_tape self.now) session request.now) result }
    {
        let Some(tape) = self.tape() else {
            return Err(CallFault::NoTape);
        };
        answer_in(alloc, tape, version, session, request).ok_or(CallFault::OutOfMemory)
    }

    /// Makes a text of the table, in place of the one before, and returns 0, or the number of the reason why there is none.
    pub(crate) fn write(&mut self, alloc: Global, text: DayText, matrix: Matrix) -> u32
        ensures { WritesTo (text_named text) matrix self.old result self.new }
    {
        let Held::Table(table) = self else {
            return CallFault::NoTable.code();
        };
        table.write(alloc, text, matrix)
    }

    /// The text of the table, or why it was not read, in words.
    pub(crate) fn text(&self) -> &[u8]
        ensures { result.now ≡ text_of self.now }
    {
        match self {
            Held::Table(table) => &table.text,
            Held::Words(words) => words,
            Held::Tape(_) | Held::Subscriber(_) => b"",
        }
    }
}

/// The message that all the bytes are.
pub(crate) fn whole_message(bytes: &[u8]) -> Result<Message, CallFault>
    ensures { result ≡ whole_message bytes.now }
{
    let (message, taken) = decode(bytes).map_err(CallFault::NoMessage)?;
    if taken != bytes.len() {
        return Err(CallFault::ExtraBytes);
    }
    Ok(message)
}
