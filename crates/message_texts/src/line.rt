//! Reads a table, and writes the bytes of one participant's messages.
ghost use Rattle.std.specs.Prelude.{◌≡◌, ◌≢◌, ◌⊎◌, Err, IfErr, IfOk, IfSome, OnErr, OnOk};
ghost use Rattle.std.specs.Io.KnownBytes.{Appends};
ghost use Rattle.csv_messages.specs.Tables.{IsTable};
ghost use Rattle.whole_io.specs.Writing.{WritesPrefix};
ghost use Rattle.csv_days.specs.declared.table_end.TableEnd.TheVariants.{OutOfMemory, WriteFault};
ghost use Rattle.message_texts.specs.Ends.{IsReadingEnd, WritesText, WritesTextPart};
ghost use Rattle.message_texts.specs.OwnBytes.{line_bytes};

use crate::form::OwnBytes;
use crate::writing::write_messages;
use csv_days::TableEnd;
use csv_messages::read_table;
use reports::Message;
use std::alloc::Global;
use std::io::{Read, Write};
use tape_types::Participant;

/// Writes the bytes of a participant's messages.
#[tactic(auto, unfolding(crate::specs::OwnBytes::line_bytes))]
fn write_line<W: Write>(
    alloc: Global,
    participant: Participant,
    messages: &[Message],
    writer: &mut W,
) -> Result<(), TableEnd>
    ensures written { OnOk result (Appends (W.contents writer.old) (W.contents writer.new) (line_bytes participant messages.now)) }
    ensures ends { IfErr result (λ end. (end ≡ OutOfMemory) ⊎ (end ≡ WriteFault)) }
    ensures prefix { WritesPrefix (line_bytes participant messages.now) (W.contents writer.old) (W.contents writer.new) }
{
    write_messages(&OwnBytes { participant }, Vec::new(alloc), messages, writer)?;
    Ok(())
}

/// Reads a table whole, and writes the bytes of this participant's messages one after another, in order, as `tapebox live`
/// takes them from the participant. If it has no message, nothing is written. The bytes are written as they are made, many
/// messages at once, and flushed at the end.
///
/// The error says why they were not written whole; it is never `Listing`. After `WriteFault` a prefix of them was written,
/// after `OutOfMemory` such a prefix or nothing, and after every other error nothing.
pub fn line_over<R: Read + Drop, W: Write>(
    alloc: Global,
    participant: Participant,
    reader: R,
    writer: &mut W,
) -> Result<(), TableEnd>
    ensures written { IfSome (R.remaining reader) (λ input. OnOk result (
        WritesText (IsTable input) (line_bytes participant) (W.contents writer.old) (W.contents writer.new))) }
    ensures end { IfSome (R.remaining reader) (λ input. IfErr result (IsReadingEnd input)) }

    // Whatever the reader, nothing is written after any other error than these two, after which a prefix may be.
    ensures silent { result ≢ Err WriteFault → result ≢ Err OutOfMemory → OnErr result (writer.new ≡ writer.old) }
    ensures prefix { (result ≡ Err WriteFault) ⊎ (result ≡ Err OutOfMemory) → IfSome (R.remaining reader) (λ input.
        WritesTextPart (IsTable input) (line_bytes participant) (W.contents writer.old) (W.contents writer.new)) }
{
    let messages = read_table(alloc, reader)?;
    write_line(alloc, participant, &messages, writer)
}
