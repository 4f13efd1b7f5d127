//! Writes messages in a form, many at once, in memory that is used again.
ghost use Rattle.std.specs.Prelude.{◌≡◌, ◌++◌, IfOk, OnOk};
ghost use Rattle.std.specs.Io.KnownBytes.{Appends};
ghost use Rattle.std.specs.List.{flat_map};
ghost use Rattle.whole_io.specs.Writing.{WritesPrefix};

use crate::form::Form;
use reports::Message;
use std::io::Write;
use whole_io::{WritingFault, flush, write_part};

/// How many messages are written at once.
const MESSAGES_AT_ONCE: usize = 512;

/// Writes a text, and makes the text of the next messages in its memory.
fn next_text<F: Form, W: Write>(
    form: &F,
    text: Vec<u8>,
    messages: &[Message],
    writer: &mut W,
) -> Result<Vec<u8>, WritingFault>
    ensures text { IfOk result (λ made. made.items ≡ flat_map (F.text form.now) messages.now) }
    ensures written { OnOk result (Appends (W.contents writer.old) (W.contents writer.new) text.items) }
    ensures prefix { WritesPrefix text.items (W.contents writer.old) (W.contents writer.new) }
{
    write_part(writer, &text)?;
    Ok(form.text_of(text, messages)?)
}

/// Writes a head and then the text of messages, many messages at once.
fn write_pieces<F: Form, W: Write>(
    form: &F,
    head: Vec<u8>,
    messages: &[Message],
    writer: &mut W,
) -> Result<(), WritingFault>
    ensures written { OnOk result (Appends (W.contents writer.old) (W.contents writer.new) (head.items ++ flat_map (F.text form.now) messages.now)) }
    ensures prefix { WritesPrefix (head.items ++ flat_map (F.text form.now) messages.now) (W.contents writer.old) (W.contents writer.new) }
{
    let mut text = head;
    let mut rest = messages;
    while !rest.is_empty() {
        let (next, behind) = rest.split_at(rest.len().min(MESSAGES_AT_ONCE));
        text = next_text(form, text, next, writer)?;
        rest = behind;
    }
    write_part(writer, &text)
}

/// Writes a head and then the text of messages, many messages at once, and flushes them. After an error a prefix may have been
/// written.
pub fn write_messages<F: Form, W: Write>(
    form: &F,
    head: Vec<u8>,
    messages: &[Message],
    writer: &mut W,
) -> Result<(), WritingFault>
    ensures written { OnOk result (Appends (W.contents writer.old) (W.contents writer.new) (head.items ++ flat_map (F.text form.now) messages.now)) }
    ensures prefix { WritesPrefix (head.items ++ flat_map (F.text form.now) messages.now) (W.contents writer.old) (W.contents writer.new) }
{
    write_pieces(form, head, messages, writer)?;
    Ok(flush(writer)?)
}
