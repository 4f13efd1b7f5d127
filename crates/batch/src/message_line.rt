//! Reads the message of a line.
ghost use Rattle.std.specs.Prelude.{◌≡◌, option_map};
ghost use Rattle.batch.specs.MessageLine.{hex_bytes, line_message, line_parts, spelled_message};

use crate::BatchRefusal;
use crate::digits::{are_digits, decode_digits};
use reports::{LONGEST_FRAME, Message, decode};
use tape_core::Refusal;

/// The message at the front of the bytes that digits spell, and how many bytes it took.
fn spelled_message(digits: &[u8]) -> Result<(Message, usize), BatchRefusal>
    ensures { result ≡ spelled_message (hex_bytes digits.now) }
{
    if digits.len() % 2 != 0 {
        return Err(BatchRefusal::BadLine);
    }
    let mut row = [0; LONGEST_FRAME];
    let (front, rest) = digits.split_at(digits.len().min(2 * LONGEST_FRAME));
    let Some(len) = decode_digits(front, &mut row) else {
        return Err(BatchRefusal::BadLine);
    };
    // No message is long enough to reach the rest, which must still be digits.
    if !are_digits(rest) {
        return Err(BatchRefusal::BadLine);
    }
    decode(&row[..len]).map_err(BatchRefusal::BadMessage)
}

/// The letter of a line, and the digits after the one space.
fn line_parts(line: &[u8]) -> Option<(u8, &[u8])>
    ensures { option_map (λ p. (p.0, p.1.now)) result ≡ line_parts line.now }
{
    match line {
        [letter @ b'A'..=b'Z', b' ', digits @ ..] => Some((*letter, digits)),
        _ => None,
    }
}

/// Reads the message of a line: one capital letter, one space, and the message's bytes as hexadecimal digits.
///
/// Errors, the first that applies: `BadLine` if the line has another form, `BadMessage` if the bytes do not begin with a
/// message, `ExtraBytes` if bytes follow it, and `WrongLine` if the letter is not the message's participant.
#[tactic(auto, unfolding(crate::specs::MessageLine::line_message))]
pub fn read_message(line: &[u8]) -> Result<Message, BatchRefusal>
    ensures { result ≡ line_message line.now }
{
    let Some((letter, digits)) = line_parts(line) else {
        return Err(BatchRefusal::BadLine);
    };
    let (message, taken) = spelled_message(digits)?;
    if taken != digits.len() / 2 {
        return Err(BatchRefusal::ExtraBytes);
    }
    if message.header().participant.value() != letter {
        return Err(BatchRefusal::Refused(Refusal::WrongLine));
    }
    Ok(message)
}
