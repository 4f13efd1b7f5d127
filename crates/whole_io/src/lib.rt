//! Reads a row of bytes, or all that is left, from a reader and writes a text whole to a writer, and says what a failed call
//! leaves.
#![tactic(auto)]

ghost use Rattle.std.specs.Prelude.{◌≤◌, ◌<◌, IfNone, IfSome, take, length};
ghost use Rattle.std.specs.Io.KnownBytes.{Consumes, IsAtEnd};
ghost use Rattle.whole_io.specs.FailedReads.{ReadsFewer};

mod lines;
mod number_text;
mod reading;
mod writing;
mod writing_fault;

pub use lines::{Lines, say};
pub use number_text::{push_counted, push_number, push_wide_number};
pub use reading::{ReadFault, read_all};
use std::io::{ErrorKind, Read};
pub use writing::{WriteFault, flush, send, write_text};
pub use writing_fault::{WritingFault, write_part};

/// Reads until the row is full or the input ends, and returns the number of bytes read, or `None` if a read failed, after fewer
/// bytes than the row has. An interrupted read is tried again. No byte is read beyond the row.
#[inline(always)]
pub fn fill<R: Read>(reader: &mut R, row: &mut [u8]) -> Option<usize>
    ensures within { IfSome result (λ n. n ≤ length row.new) }
    ensures bytes { IfSome result (λ n. Consumes (R.remaining reader.old) (R.remaining reader.new) (take n row.new)) }
    ensures end { IfSome result (λ n. n < length row.new → IsAtEnd (R.remaining reader.new)) }
    ensures failed { IfNone result (ReadsFewer (R.remaining reader.old) (R.remaining reader.new) (length row.new)) }
{
    let mut len = 0;
    for _ in 0..u64::MAX {
        if len >= row.len() {
            return Some(len);
        }
        match reader.read(&mut row[len..]) {
            Ok(0) => return Some(len),
            Ok(more) => len += more,
            Err(error) => {
                if error.kind() != ErrorKind::Interrupted {
                    return None;
                }
            }
        }
    }
    if len < row.len() { None } else { Some(len) }
}
