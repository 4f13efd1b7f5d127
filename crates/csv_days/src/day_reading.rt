//! Reads a table's rows piece by piece and answers each piece, so that the messages are not kept.
ghost use Rattle.std.specs.Prelude.{◌≡◌, ◌≢◌, IfErr, IfOk, OnOk};
ghost use Rattle.csv_messages.specs.TableReading.{ReadsRows};
ghost use Rattle.csv_days.specs.EndDays.{EndsWith, IsEnding, ReadsAll, ReadsDay, StopsDay};
ghost use Rattle.csv_days.specs.declared.table_end.TableEnd.TheVariants.{WriteFault};

use crate::TableEnd;
use crate::end_day::EndDay;
use csv_messages::RowReader;
use sale_matrix::Matrix;
use std::alloc::Global;
use std::io::Read;

/// How many rows are read before they are answered.
const PIECE_ROWS: usize = 4096;

/// Reads and answers all rows that are left of a table.
fn answer_rows<R: Read + Drop>(
    alloc: Global,
    rows: &mut RowReader<R>,
    day: &mut EndDay,
) -> Result<(), TableEnd>
    requires reads { ReadsRows rows.old }
    requires ending { IsEnding day.old }
    ensures all { OnOk result (ReadsAll R.remaining rows.old day.old day.new) }
    ensures end { IfErr result (λ end. (end ≢ WriteFault) × EndsWith R.remaining rows.old end) }
{
    for _ in 0..u64::MAX {
        let piece = rows.piece(alloc, PIECE_ROWS)?;
        day.answer_all(&piece.messages)?;
        if piece.last {
            return Ok(());
        }
    }
    Err(TableEnd::OutOfMemory)
}

/// Reads a table and returns its day by a matrix, of which only the end is asked.
pub fn read_day<R: Read + Drop>(
    alloc: Global,
    matrix: Matrix,
    reader: R,
) -> Result<EndDay, TableEnd>
    ensures day { IfOk result (ReadsDay (R.remaining reader) matrix) }
    ensures end { IfErr result (λ end. (end ≢ WriteFault) × StopsDay (R.remaining reader) end) }
{
    let mut rows = RowReader::open(alloc, reader)?;
    let mut day = EndDay::new(alloc, matrix);
    answer_rows(alloc, &mut rows, &mut day)?;
    Ok(day)
}
