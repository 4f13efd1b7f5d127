//! Writes messages in each of two forms: lines of a batch, and bytes of one participant.
ghost use Rattle.std.specs.Prelude.{◌≡◌, ◌++◌, ◌+◌, ◌*◌, ◌≤◌, List, ℕ, IfOk, OnOk, length, take};
ghost use Rattle.std.specs.List.{flat_map};
ghost use Rattle.hex.specs.Hex.{encode_lower};
ghost use Rattle.reports.specs.Spelling.{spelling};
ghost use Rattle.reports.specs.declared.message.Message.{Message};
ghost use Rattle.message_texts.specs.EncodedTexts.{message_line};
ghost use Rattle.message_texts.specs.OwnBytes.{own_bytes};

use hex::encode_to_slice;
use reports::{LONGEST_MESSAGE, Message, encode_into};
use std::alloc::AllocError;
use tape_types::Participant;

/// A form in which messages are written one after another, each alone.
pub trait Form {
    /// What a message is written as.
    ghost text: { Self → Message → List ℕ };

    /// The text of messages, in the memory of an earlier text. `AllocError` if memory runs out.
    fn text_of(&self, memory: Vec<u8>, messages: &[Message]) -> Result<Vec<u8>, AllocError>
        ensures made { IfOk result (λ made. made.items ≡ flat_map (text self.now) messages.now) };
}

/// The lines of a batch.
#[derive(Clone, Copy)]
pub struct BatchLines;

/// Spells bytes as lower case digits.
fn spell(bytes: &[u8], digits: &mut [u8])
    requires room { length digits.old ≡ 2 * length bytes.now }
    ensures spelled { digits.new ≡ encode_lower bytes.now }
{
    encode_to_slice(bytes, digits).unwrap();
}

/// Adds a message's line: the participant, a space, its bytes in digits, and a line feed.
#[tactic(auto, unfolding(crate::specs::EncodedTexts::message_line))]
fn push_line(text: &mut Vec<u8>, message: &Message) -> Result<(), AllocError>
    ensures { OnOk result (text.new.items ≡ text.old.items ++ message_line message.now) }
{
    let mut row = [0; LONGEST_MESSAGE];
    let len = encode_into(message, &mut row);
    let mut room = [0; 2 * LONGEST_MESSAGE];
    let digits = &mut room[..2 * len];
    spell(&row[..len], digits);
    text.extend_from_slice(&[message.header().participant.value(), b' '])?;
    text.extend_from_slice(digits)?;
    text.push(b'\n')?;
    Ok(())
}

impl Form for BatchLines {
    ghost text = { λ _ m. message_line m };

    fn text_of(&self, memory: Vec<u8>, messages: &[Message]) -> Result<Vec<u8>, AllocError> {
        let mut lines = memory;
        lines.clear();
        for message in messages {
            push_line(&mut lines, message)?;
        }
        Ok(lines)
    }
}

/// The bytes of one participant's messages, and nothing for any other message.
#[derive(Clone, Copy)]
pub struct OwnBytes {
    /// Whose messages are written.
    pub participant: Participant,
}

/// Adds a message's bytes.
fn push_bytes(text: &mut Vec<u8>, message: &Message) -> Result<(), AllocError>
    ensures { OnOk result (text.new.items ≡ text.old.items ++ spelling message.now) }
{
    let mut row = [0; LONGEST_MESSAGE];
    let len = encode_into(message, &mut row);
    text.extend_from_slice(&row[..len])
}

/// Adds a message's bytes if the participant sent it.
fn push_own(
    text: &mut Vec<u8>,
    participant: Participant,
    message: &Message,
) -> Result<(), AllocError>
    ensures { OnOk result (text.new.items ≡ text.old.items ++ own_bytes participant message.now) }
{
    if message.header().participant == participant {
        push_bytes(text, message)?;
    }
    Ok(())
}

impl Form for OwnBytes {
    ghost text = { λ form m. own_bytes form.participant m };

    fn text_of(&self, memory: Vec<u8>, messages: &[Message]) -> Result<Vec<u8>, AllocError> {
        let mut bytes = memory;
        bytes.clear();
        for message in messages {
            push_own(&mut bytes, self.participant, message)?;
        }
        Ok(bytes)
    }
}
