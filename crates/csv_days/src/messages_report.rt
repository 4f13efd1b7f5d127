//! Writes the report of messages that were read before.
ghost use Rattle.std.specs.Prelude.{◌≡◌, ◌≢◌, Err, IfErr, IfOk, OnErr, OnOk};
ghost use Rattle.std.specs.Io.KnownBytes.{Appends};
ghost use Rattle.whole_io.specs.Writing.{WritesPrefix};
ghost use Rattle.tape_core.specs.Answers.{answers};
ghost use Rattle.csv_days.specs.Days.{day_text, first_tape};
ghost use Rattle.csv_days.specs.Refusals.{AreRefusals};
ghost use Rattle.csv_days.specs.StaleRows.{first_stale};
ghost use Rattle.csv_days.specs.TableEnds.{IsMessagesEnd};
ghost use Rattle.csv_days.specs.declared.table_end.TableEnd.TheVariants.{WriteFault as TableWriteFault};

use crate::end_day::EndDay;
use crate::report::write_report_of;
use crate::{Refusals, TableEnd};
use reports::Message;
use sale_matrix::Matrix;
use std::alloc::Global;
use std::io::Write;

/// Answers messages in order by a tape of the names in them, in the order in which they first appear, and writes the report of
/// the tape as `report_over` does. Returns what the tape refused.
///
/// If there is no report the error says why, and nothing is written except at a `WriteFault`.
pub(crate) fn write_messages_report<W: Write>(
    alloc: Global,
    matrix: Matrix,
    messages: &[Message],
    writer: &mut W,
) -> Result<Refusals, TableEnd>
    ensures refused { IfOk result (AreRefusals (answers (first_tape matrix messages.now) messages.now)) }
    ensures stale { IfOk result (λ refusals. refusals.stale ≡ first_stale (first_tape matrix messages.now) messages.now) }
    ensures written { OnOk result (Appends (W.contents writer.old) (W.contents writer.new) (day_text matrix messages.now)) }
    ensures end { IfErr result (IsMessagesEnd messages.now) }
    ensures silent { result ≢ Err TableWriteFault → OnErr result (writer.new ≡ writer.old) }
    ensures prefix { result ≡ Err TableWriteFault → WritesPrefix (day_text matrix messages.now) (W.contents writer.old) (W.contents writer.new) }
{
    let mut day = EndDay::new(alloc, matrix);
    day.answer_all(messages)?;
    write_report_of(alloc, &day, writer)
}
