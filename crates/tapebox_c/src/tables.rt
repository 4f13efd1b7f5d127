//! The calls of a table: it is read once, and its texts are made from what was read, one at a time.
ghost use Rattle.std.specs.Prelude.{◌≡◌, ◌++◌, IfSome, Some, drop, length};
ghost use Rattle.csv_days.specs.DayTexts.{text_named};
ghost use Rattle.csv_days.specs.Days.{day_text};
ghost use Rattle.csv_days.specs.Explained.{explain_text};
ghost use Rattle.csv_days.specs.TapeRows.{tape_text};
ghost use Rattle.tapebox_c.specs.Opening.{matrix_numbered};
ghost use Rattle.tapebox_c.specs.Tables.{Reads, ReadsIn, WritesIn, copied, held_text};

use crate::ends::fault_text;
use crate::fault::CallFault;
use crate::handle::Handle;
use crate::held::Held;
use crate::opening::matrix_numbered;
use crate::table::{Table, end_fault};
use csv_days::{DayText, TableEnd};
use csv_messages::read_table;
use std::alloc::Global;

/// Returns a table that was read, or why it is none in words, with 0 or the number of that; `None` if memory runs out for the
/// words.
fn table_read(alloc: Global, table: &[u8]) -> Option<(Held, u32)>
    ensures { IfSome result (λ read. Reads table.now read.1 (Some read.0)) }
{
    match read_table(alloc, table) {
        Ok(messages) => {
            let text = Vec::new(alloc);
            Some((Held::Table(Table { messages, text }), 0))
        }
        Err(fault) => {
            let Ok(words) = fault_text(alloc, &fault) else {
                return None;
            };
            let code = end_fault(&TableEnd::Table(fault)).code();
            Some((Held::Words(words), code))
        }
    }
}

/// Reads a table. The handle must hold nothing. It then holds the table, or if that has a fault, the fault in words.
#[unsafe(no_mangle)]
pub extern "C" fn tapebox_read_table(alloc: Global, handle: &mut Handle, table: &[u8]) -> u32
    ensures { ReadsIn handle.old.inside.held table.now result handle.new.inside.held }
{
    if handle.is_full() {
        return CallFault::InUse.code();
    }
    let Some((held, code)) = table_read(alloc, table) else {
        return CallFault::OutOfMemory.code();
    };
    match Box::new(alloc, held) {
        Ok(boxed) => {
            handle.put(boxed);
            code
        }
        Err(_) => CallFault::OutOfMemory.code(),
    }
}

/// Makes a text of the table that the handle holds by a matrix, 1 or 2, in place of the one before.
fn write_text(alloc: Global, handle: &mut Handle, text: DayText, matrix: u32) -> u32
    ensures { WritesIn (text_named text) (matrix_numbered matrix) handle.old.inside.held result handle.new.inside.held }
{
    let Some(matrix) = matrix_numbered(matrix) else {
        return CallFault::BadMatrix.code();
    };
    let Some(mut held) = handle.take(alloc) else {
        return CallFault::NoTable.code();
    };
    let code = held.write(alloc, text, matrix);
    handle.put(held);
    code
}

/// Makes the report of the table that the handle holds by a matrix, 1 or 2. The handle then holds the report in place of the
/// former text, or if there is none, the reason in words.
#[unsafe(no_mangle)]
pub extern "C" fn tapebox_report(alloc: Global, handle: &mut Handle, matrix: u32) -> u32
    ensures { WritesIn day_text (matrix_numbered matrix) handle.old.inside.held result handle.new.inside.held }
{
    write_text(alloc, handle, DayText::Report, matrix)
}

/// Makes the readable tape of the table, as `tapebox_report` makes its report.
#[unsafe(no_mangle)]
pub extern "C" fn tapebox_tape(alloc: Global, handle: &mut Handle, matrix: u32) -> u32
    ensures { WritesIn tape_text (matrix_numbered matrix) handle.old.inside.held result handle.new.inside.held }
{
    write_text(alloc, handle, DayText::Tape, matrix)
}

/// Makes a text of what became of each report of the table and which figures it sets, as `tapebox_report` makes the table's
/// report.
#[unsafe(no_mangle)]
pub extern "C" fn tapebox_explain(alloc: Global, handle: &mut Handle, matrix: u32) -> u32
    ensures { WritesIn explain_text (matrix_numbered matrix) handle.old.inside.held result handle.new.inside.held }
{
    write_text(alloc, handle, DayText::Explanation, matrix)
}

/// Returns how many bytes the handle's text has, 0 if it holds none.
#[unsafe(no_mangle)]
pub extern "C" fn tapebox_text_length(alloc: Global, handle: &mut Handle) -> usize
    ensures length { result ≡ length (held_text handle.old.inside.held) }
    ensures kept { handle.new.inside.held ≡ handle.old.inside.held }
{
    let Some(held) = handle.take(alloc) else {
        return 0;
    };
    let length = held.text().len();
    handle.put(held);
    length
}

/// Copies the bytes of the text that the handle holds, from the one at `from` on, to the front of a row, and returns how many
/// they are: as many as there are and as the row has room for, so 0 at the end of the text or if none is held. The rest of the
/// row stays as it was.
#[unsafe(no_mangle)]
pub extern "C" fn tapebox_text_copy(
    alloc: Global,
    handle: &mut Handle,
    from: usize,
    row: &mut [u8],
) -> usize
    ensures count { result ≡ length (copied from (held_text handle.old.inside.held) row.old) }
    ensures bytes { row.new ≡ copied from (held_text handle.old.inside.held) row.old ++ drop result row.old }
    ensures kept { handle.new.inside.held ≡ handle.old.inside.held }
{
    let Some(held) = handle.take(alloc) else {
        return 0;
    };
    let count = copy(held.text(), from, row);
    handle.put(held);
    count
}

/// Copies the bytes of a text from the one at `from` on to the front of a row, as many as there are and as the row has room
/// for, and returns how many they are. The rest of the row stays as it was.
fn copy(text: &[u8], from: usize, row: &mut [u8]) -> usize
    ensures count { result ≡ length (copied from text.now row.old) }
    ensures bytes { row.new ≡ copied from text.now row.old ++ drop result row.old }
{
    let rest = &text[from.min(text.len())..];
    let count = rest.len().min(row.len());
    row[..count].copy_from_slice(&rest[..count]);
    count
}
