//! Writes one of the three texts of a day's messages.
ghost use Rattle.std.specs.Prelude.{◌≡◌, ◌≢◌, ◌⊎◌, ◌+◌, ◌<◌, ◌^◌, Err, IfErr, IfOk, OnErr, OnOk, length};
ghost use Rattle.std.specs.Io.KnownBytes.{Appends};
ghost use Rattle.csv_messages.specs.Tables.{FIRST_ROW};
ghost use Rattle.whole_io.specs.Writing.{WritesPrefix};
ghost use Rattle.tape_core.specs.Answers.{answers};
ghost use Rattle.csv_days.specs.Days.{first_tape};
ghost use Rattle.csv_days.specs.DayTexts.{text_named};
ghost use Rattle.csv_days.specs.Refusals.{AreRefusals};
ghost use Rattle.csv_days.specs.StaleRows.{first_stale};
ghost use Rattle.csv_days.specs.TableEnds.{IsMessagesEnd};
ghost use Rattle.csv_days.specs.declared.table_end.TableEnd.TheVariants.{OutOfMemory, WriteFault as TableWriteFault};

use crate::messages_report::write_messages_report;
use crate::{Refusals, TableEnd, write_explained, write_tape};
use reports::Message;
use sale_matrix::Matrix;
use std::alloc::Global;
use std::io::Write;

/// A text of a day.
#[derive(Clone, Copy, Debug, PartialEq, Eq)]
pub enum DayText {
    /// Its report.
    Report,
    /// Its readable tape.
    Tape,
    /// What became of each of its reports.
    Explanation,
}

/// Answers messages in order by a tape of the names in them, in the order in which they first appear, and writes this text of
/// their day, as `write_messages_report`, `write_tape` or `write_explained` does. Returns what the tape refused.
///
/// If the text is not written whole the error says why. At a `WriteFault` a part of it from the front was written, and at
/// `OutOfMemory` such a part or nothing, but of a report nothing; at every other error nothing was.
pub fn write_day_text<W: Write>(
    text: DayText,
    alloc: Global,
    matrix: Matrix,
    messages: &[Message],
    writer: &mut W,
) -> Result<Refusals, TableEnd>
    requires few { length messages.now + FIRST_ROW < 2 ^ 64 }
    ensures refused { IfOk result (AreRefusals (answers (first_tape matrix messages.now) messages.now)) }
    ensures stale { IfOk result (λ refusals. refusals.stale ≡ first_stale (first_tape matrix messages.now) messages.now) }
    ensures written { OnOk result (Appends (W.contents writer.old) (W.contents writer.new) (text_named text matrix messages.now)) }
    ensures end { IfErr result (IsMessagesEnd messages.now) }
    ensures silent { result ≢ Err TableWriteFault → result ≢ Err OutOfMemory → OnErr result (writer.new ≡ writer.old) }
    ensures report { text ≡ DayText.Report → result ≡ Err OutOfMemory → writer.new ≡ writer.old }
    ensures prefix { (result ≡ Err TableWriteFault) ⊎ (result ≡ Err OutOfMemory)
        → WritesPrefix (text_named text matrix messages.now) (W.contents writer.old) (W.contents writer.new) }
{
    match text {
        DayText::Report => write_messages_report(alloc, matrix, messages, writer),
        DayText::Tape => write_tape(alloc, matrix, messages, writer),
        DayText::Explanation => write_explained(alloc, matrix, messages, writer),
    }
}
