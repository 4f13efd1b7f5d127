//! Reads a client's line, from its first byte to its line feed and no further.
ghost use Rattle.std.specs.Prelude.{◌≡◌, ◌+◌, [], ◌∷◌, length, IfOk, IfSome, IfNone, OnErr};
ghost use Rattle.std.specs.Io.KnownBytes.{Consumes, IsAtEnd};
ghost use Rattle.day_control.specs.Lines.{ReadsLine};

use std::io::Read;
use whole_io::fill;

/// How many bytes a line has at most, without its line feed.
pub const LINE_MOST: usize = 64;

/// How many bytes are read of a line that is too long.
pub(crate) const LINE_ROOM: usize = LINE_MOST + 1;

/// The byte that ends a line.
pub(crate) const LINE_FEED: u8 = b'\n';

/// A read failed, or brought nothing in time.
#[derive(Clone, Copy, Debug, PartialEq, Eq)]
pub(crate) struct FailedRead;

/// What was read of a line.
#[derive(Clone, Copy, Debug, PartialEq, Eq)]
pub(crate) enum LineRead {
    /// A line of this many bytes, which are at the front of the row, and its line feed.
    Line(usize),
    /// One byte more than a line may have, none of them a line feed.
    TooLong,
    /// Nothing: the input ended.
    Nothing,
    /// The input ended within a line.
    Part,
    /// A read failed, at the beginning of a line or within it.
    Fault,
}

/// Returns the next byte, or `None` if the input ended.
pub(crate) fn next_byte<R: Read>(reader: &mut R) -> Result<Option<u8>, FailedRead>
    ensures byte { IfOk result (λ next. IfSome next (λ b. Consumes (R.remaining reader.old) (R.remaining reader.new) (b ∷ []))) }
    ensures end { IfOk result (λ next. IfNone next (Consumes (R.remaining reader.old) (R.remaining reader.new) [] × IsAtEnd (R.remaining reader.new))) }
    ensures fault { OnErr result (Consumes (R.remaining reader.old) (R.remaining reader.new) []) }
{
    let mut byte = [0];
    match fill(reader, &mut byte) {
        None => Err(FailedRead),
        Some(0) => Ok(None),
        Some(_) => Ok(Some(byte[0])),
    }
}

/// Reads a line, and no byte after its line feed.
pub(crate) fn read_line<R: Read>(reader: &mut R, row: &mut [u8]) -> LineRead
    requires { length row.old ≡ LINE_ROOM }
    ensures { ReadsLine result (R.remaining reader.old) (R.remaining reader.new) row.new }
{
    for len in 0..LINE_ROOM {
        match next_byte(reader) {
            Ok(Some(byte)) => {
                if byte == LINE_FEED {
                    return LineRead::Line(len);
                }
                row[len] = byte;
            }
            Ok(None) => return if len == 0 {
                LineRead::Nothing
            } else {
                LineRead::Part
            },
            Err(FailedRead) => return LineRead::Fault,
        }
    }
    LineRead::TooLong
}
