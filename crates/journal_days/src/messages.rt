//! Takes the messages out of a tape's entries.
ghost use Rattle.std.specs.Prelude.{◌≡◌, IfOk};
ghost use Rattle.journal_days.specs.Texts.{messages_in};

use reports::Message;
use std::alloc::{AllocError, Global};
use tape_core::Entry;

/// Returns the messages of entries, in order.
pub fn messages_in(alloc: Global, entries: &[Entry]) -> Result<Vec<Message>, AllocError>
    ensures { IfOk result (λ messages. messages.items ≡ messages_in entries.now) }
{
    let mut messages = Vec::with_capacity(alloc, entries.len())?;
    for entry in entries {
        messages.push(entry.message)?;
    }
    Ok(messages)
}
