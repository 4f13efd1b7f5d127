//! Reads a table, and writes its messages as the text of a batch.
ghost use Rattle.std.specs.Prelude.{◌≡◌, ◌≢◌, ◌⊎◌, Err, IfErr, IfOk, IfSome, OnErr, OnOk};
ghost use Rattle.std.specs.Io.KnownBytes.{Appends};
ghost use Rattle.csv_messages.specs.Tables.{IsTable};
ghost use Rattle.whole_io.specs.Writing.{WritesPrefix};
ghost use Rattle.csv_days.specs.TableEnds.{IsMessagesEnd, IsTableEnd};
ghost use Rattle.csv_days.specs.declared.table_end.TableEnd.TheVariants.{OutOfMemory, WriteFault};
ghost use Rattle.message_texts.specs.EncodedTexts.{encoded_text};
ghost use Rattle.message_texts.specs.Ends.{WritesText, WritesTextPart};

use crate::form::BatchLines;
use crate::header_text::header_text;
use crate::writing::write_messages;
use csv_days::{TableEnd, listing_of};
use csv_messages::read_table;
use reports::Message;
use std::alloc::Global;
use std::io::{Read, Write};

/// Writes messages as the text of a batch.
#[tactic(auto, unfolding(crate::specs::EncodedTexts::encoded_text))]
fn write_encoded<W: Write>(
    alloc: Global,
    messages: &[Message],
    writer: &mut W,
) -> Result<(), TableEnd>
    ensures written { OnOk result (Appends (W.contents writer.old) (W.contents writer.new) (encoded_text messages.now)) }
    ensures end { IfErr result (IsMessagesEnd messages.now) }
    ensures silent { result ≢ Err WriteFault → result ≢ Err OutOfMemory → OnErr result (writer.new ≡ writer.old) }
    ensures prefix { WritesPrefix (encoded_text messages.now) (W.contents writer.old) (W.contents writer.new) }
{
    let listing = listing_of(alloc, messages)?;
    let head = header_text(alloc, &listing)?;
    write_messages(&BatchLines, head, messages, writer)?;
    Ok(())
}

/// Reads a table whole, and writes its messages as the text that `tapebox batch` takes: a line of the symbols and one of the
/// participants, each in the order in which they first appear, and a line for each message, in order. The lines are written as
/// they are made, many at once, and flushed at the end.
///
/// The error says why the text was not written whole. `Table` says what is wrong with the table, and `Listing` that it has more
/// symbols than a batch takes. After `WriteFault` a prefix of the text was written, after `OutOfMemory` such a prefix or
/// nothing, and after every other error nothing.
pub fn encode_over<R: Read + Drop, W: Write>(
    alloc: Global,
    reader: R,
    writer: &mut W,
) -> Result<(), TableEnd>
    ensures written { IfSome (R.remaining reader) (λ input. OnOk result (
        WritesText (IsTable input) encoded_text (W.contents writer.old) (W.contents writer.new))) }
    ensures end { IfSome (R.remaining reader) (λ input. IfErr result (IsTableEnd input)) }

    // Whatever the reader, nothing is written after any other error than these two, after which a prefix may be.
    ensures silent { result ≢ Err WriteFault → result ≢ Err OutOfMemory → OnErr result (writer.new ≡ writer.old) }
    ensures prefix { (result ≡ Err WriteFault) ⊎ (result ≡ Err OutOfMemory) → IfSome (R.remaining reader) (λ input.
        WritesTextPart (IsTable input) encoded_text (W.contents writer.old) (W.contents writer.new)) }
{
    let messages = read_table(alloc, reader)?;
    write_encoded(alloc, &messages, writer)
}
