//! Reads frames from a line: from the reader's buffer if a whole frame is there, else into a row of bytes.
ghost use Rattle.std.specs.Prelude.{◌≡◌, ◌+◌, ◌≤◌, ◌<◌, ◌++◌, List, ℕ, None, IfErr, IfOk, IfNone, IfSome, length, take};
ghost use Rattle.std.specs.Io.KnownBytes.{Consumes, IsAtEnd, Keeps};
ghost use Rattle.reports.specs.Reading.{announced_length, LONGEST_FRAME};
ghost use Rattle.participant_lines.specs.Frames.{EndsInput, IsFrame, IsLength, IsSpelled, ReadsFrame};

use crate::LineOutcome;
use reports::{LONGEST_FRAME, Message, MessageFault, Unread, decode, is_oversize};
use std::io::{BufRead, ErrorKind, Read};
use whole_io::fill;

/// How many bytes a frame's length has.
const LENGTH_BYTES: usize = 2;

/// Reads on from one position of the row to another or until the input ends. Returns the position that it reached, or `None` if
/// a read failed.
#[inline(always)]
fn read_on<R: Read>(
    reader: &mut R,
    row: &mut [u8; LONGEST_FRAME],
    from: usize,
    to: usize,
) -> Option<usize>
    requires order { from ≤ to }
    requires within { to ≤ LONGEST_FRAME }
    ensures within { IfSome result (λ n. n ≤ to) }
    ensures bytes { IfSome result (λ n. (piece : List ℕ) × (from + length piece ≡ n) × (take n row.new ≡ take from row.old ++ piece)
        × Consumes (R.remaining reader.old) (R.remaining reader.new) piece) }
    ensures end { IfSome result (λ n. n < to → IsAtEnd (R.remaining reader.new)) }
    ensures failed { IfNone result ((piece : List ℕ) × Consumes (R.remaining reader.old) (R.remaining reader.new) piece × (from + length piece < to)) }
{
    let read = fill(reader, &mut row[from..to])?;
    Some(from + read)
}

/// The length that bytes announce at their front; `None` if they are fewer than a length has.
#[tactic(auto, unfolding(reports::specs::Fields::number_at, reports::specs::Fields::bytes_at, reports::specs::Reading::announced_length))]
fn length_in_front(bytes: &[u8]) -> Option<usize>
    ensures some { IfSome result (λ len. (len ≡ announced_length bytes.now) × (2 ≤ length bytes.now)) }
    ensures none { result ≡ None → length bytes.now < 2 }
{
    let mut unread = Unread::of(bytes);
    match unread.u16(()) {
        Ok(len) => Some(usize::from(len)),
        Err(()) => None,
    }
}

/// Reads the length of the next frame to the front of the row, and returns it, or how the line ends instead.
#[inline(always)]
fn read_length<R: Read>(reader: &mut R, row: &mut [u8; LONGEST_FRAME]) -> Result<usize, LineOutcome>
    ensures len { IfOk result IsLength }
    ensures ok { IfOk result (λ len. (announced_length (take 2 row.new) ≡ len)
        × Consumes (R.remaining reader.old) (R.remaining reader.new) (take 2 row.new)) }
    ensures err { IfErr result (λ ended. EndsInput ended (R.remaining reader.old) (R.remaining reader.new)) }
{
    match read_on(reader, row, 0, LENGTH_BYTES) {
        None => return Err(LineOutcome::ReadFault),
        Some(0) => return Err(LineOutcome::Clean),
        Some(1) => return Err(LineOutcome::Truncated),
        Some(_) => {}
    }
    let len = length_in_front(row).unwrap();
    if is_oversize(len) {
        return Err(LineOutcome::Oversize);
    }
    Ok(len)
}

/// Reads the next frame to the front of the row, and returns how many bytes it has, or how the line ends instead.
#[inline(always)]
fn read_frame<R: Read>(reader: &mut R, row: &mut [u8; LONGEST_FRAME]) -> Result<usize, LineOutcome>
    ensures within { IfOk result (λ len. len ≤ LONGEST_FRAME) }
    ensures ok { IfOk result (λ len. IsFrame (take len row.new) × Consumes (R.remaining reader.old) (R.remaining reader.new) (take len row.new)) }
    ensures err { IfErr result (λ ended. EndsInput ended (R.remaining reader.old) (R.remaining reader.new)) }
{
    let len = read_length(reader, row)?;
    let whole = LENGTH_BYTES + len;
    match read_on(reader, row, LENGTH_BYTES, whole) {
        None => Err(LineOutcome::ReadFault),
        Some(read) if read < whole => Err(LineOutcome::Truncated),
        Some(_) => Ok(whole),
    }
}

/// What a frame spells: its message, or why it spells none.
pub(crate) type Spelled = Result<Message, MessageFault>;

/// Reads what a frame spells.
#[inline(always)]
fn spelled(frame: &[u8]) -> Spelled
    requires { IsFrame frame.now }
    ensures { IsSpelled frame.now result }
{
    let (message, _) = decode(frame)?;
    Ok(message)
}

/// The frame at the front of some bytes, if it is there whole.
#[inline(always)]
fn frame_in(bytes: &[u8]) -> Option<&[u8]>
    ensures within { IfSome result (λ frame. length frame.now ≤ length bytes.now) }
    ensures front { IfSome result (λ frame. take (length frame.now) bytes.now ≡ frame.now) }
    ensures frame { IfSome result (λ frame. IsFrame frame.now) }
{
    let len = length_in_front(bytes)?;
    if is_oversize(len) || bytes.len() < LENGTH_BYTES + len {
        return None;
    }
    Some(&bytes[..LENGTH_BYTES + len])
}

/// Reads the next frame if the reader's buffer has it whole, without copying it. Returns what it spells, or `None` if it is not
/// there, and then nothing was read.
#[inline(always)]
fn read_at_hand<R: BufRead>(reader: &mut R) -> Result<Option<Spelled>, LineOutcome>
    ensures some { IfOk result (λ found. IfSome found (ReadsFrame (R.remaining reader.old) (R.remaining reader.new))) }
    ensures none { IfOk result (λ found. IfNone found (Keeps (R.remaining reader.old) (R.remaining reader.new))) }
    ensures err { IfErr result (λ ended. EndsInput ended (R.remaining reader.old) (R.remaining reader.new)) }
{
    let piece = match reader.fill_buf() {
        Ok(piece) => piece,
        // The next read tries again.
        Err(error) if error.kind() == ErrorKind::Interrupted => return Ok(None),
        Err(_) => return Err(LineOutcome::ReadFault),
    };
    let Some(frame) = frame_in(piece) else {
        return Ok(None);
    };
    let found = spelled(frame);
    let len = frame.len();
    reader.consume(len);
    Ok(Some(found))
}

/// Reads the next frame, and returns what it spells, or how the line ends instead. A frame that the reader's buffer has not
/// whole is put together in the row, which is only room.
#[inline(always)]
pub(crate) fn read_spelled<R: BufRead>(
    reader: &mut R,
    row: &mut [u8; LONGEST_FRAME],
) -> Result<Spelled, LineOutcome>
    ensures ok { IfOk result (ReadsFrame (R.remaining reader.old) (R.remaining reader.new)) }
    ensures err { IfErr result (λ ended. EndsInput ended (R.remaining reader.old) (R.remaining reader.new)) }
{
    if let Some(found) = read_at_hand(reader)? {
        return Ok(found);
    }
    let len = read_frame(reader, row)?;
    Ok(spelled(&row[..len]))
}
