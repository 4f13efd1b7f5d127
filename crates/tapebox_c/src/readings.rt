//! Reads a tape: summaries, entries, names, packets and answers.
ghost use Rattle.std.specs.Prelude.{◌≡◌, IfSome, option_and_then, slice_get};
ghost use Rattle.tape_types.specs.Names.{symbol_named};
ghost use Rattle.retransmit.specs.Answers.{answer_text};
ghost use Rattle.tape_core.specs.Tape.{summary_at, participant_summary_at};
ghost use Rattle.tapebox_c.specs.Calls.{entry_numbered, letter_named};
ghost use Rattle.tapebox_c.specs.Listed.{totals_of};
ghost use Rattle.tapebox_c.specs.Sending.{packet_between};

use retransmit::{Ended, serve};
use scratch_fold::Summary;
use std::alloc::Global;
use tape_core::{Entry, Figures, IndexedTape};
use tape_frames::{Packet, REQUEST_LENGTH, SliceSource, Source, Version, cut};
use tape_types::{Participant, Symbol};

/// The participant of a letter.
fn participant(letter: u8) -> Option<Participant>
    ensures { result ≡ letter_named letter }
{
    Participant::try_new(letter)
}

/// The consolidated summary of a symbol, by its name.
pub(crate) fn summary_in(tape: &IndexedTape, name: &[u8]) -> Option<Summary>
    ensures { result ≡ option_and_then (summary_at tape.now) (symbol_named name.now) }
{
    let symbol = Symbol::of_name(name)?;
    tape.summary(symbol)
}

/// A participant's own summary of a symbol, by the symbol's name.
pub(crate) fn summary_of_in(tape: &IndexedTape, name: &[u8], letter: u8) -> Option<Summary>
    ensures { result ≡ option_and_then (λ symbol. option_and_then (participant_summary_at tape.now symbol) (letter_named letter)) (symbol_named name.now) }
{
    let symbol = Symbol::of_name(name)?;
    let who = participant(letter)?;
    tape.summary_of(symbol, who)
}

/// The entry of a number.
pub(crate) fn entry_in(tape: &IndexedTape, number: u32) -> Option<Entry>
    ensures { result ≡ entry_numbered tape.now.entries number }
{
    if number == 0 {
        return None;
    }
    tape.entries().get(number as usize - 1).copied()
}

/// What a participant has sent, by its letter.
pub(crate) fn totals_in(tape: &IndexedTape, letter: u8) -> Option<Figures>
    ensures { result ≡ totals_of tape.now letter }
{
    let who = participant(letter)?;
    Some(tape.figures_of(who))
}

/// The symbol at a place of the listing.
pub(crate) fn symbol_in(tape: &IndexedTape, place: u32) -> Option<Symbol>
    ensures { result ≡ slice_get tape.now.listing.symbols place }
{
    let symbols = tape.listing().symbols();
    symbols.as_slice().get(place as usize).copied()
}

/// The participant at a place of the listing.
pub(crate) fn participant_in(tape: &IndexedTape, place: u32) -> Option<Participant>
    ensures { result ≡ slice_get tape.now.listing.participants place }
{
    let participants = tape.listing().participants();
    participants.as_slice().get(place as usize).copied()
}

/// The packet of the entries from one number on, up to another.
pub(crate) fn packet_in(
    tape: &IndexedTape,
    version: Version,
    session: u64,
    from: u32,
    to: u32,
) -> Option<Packet>
    ensures { result ≡ packet_between tape.now.entries version session from to }
{
    let entries = tape.entries();
    let many = entries.len().min(to as usize);
    let source = SliceSource::new(&entries[..many]);
    let last = source.published().min(version.number_most());
    if from == 0 || last < from {
        return None;
    }
    Some(cut(version, session, from, &source))
}

/// The answer to a request, or `None` if memory runs out.
pub(crate) fn answer_in(
    alloc: Global,
    tape: &IndexedTape,
    version: Version,
    session: u64,
    request: &[u8; REQUEST_LENGTH],
) -> Option<Vec<u8>>
    ensures { IfSome result (λ text. text.items ≡ answer_text tape.now.entries session version request.now) }
{
    let mut source = SliceSource::of(tape);
    let published = source.published();
    let mut reader: &[u8] = request;
    let mut text = Vec::new(alloc);
    let end = serve(alloc, &mut source, session, version, &mut reader, &mut text);
    // The tape is borrowed while it is served, so the answer has the entries that it had before.
    if source.published() != published {
        return None;
    }
    match end.ended {
        Ended::Clean => Some(text),
        _ => None,
    }
}
