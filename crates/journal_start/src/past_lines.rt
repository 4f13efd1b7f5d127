//! Computes how far all lines of a day had come, from the entries of a journal.
ghost use Rattle.std.specs.Prelude.{◌≡◌, IfOk, map};
ghost use Rattle.journal_start.specs.PastLines.{no_entry, with_entries};

use crate::PastLine;
use std::alloc::{AllocError, Global};
use tape_core::Entry;
use tape_types::Participant;

/// Returns the lines of participants without an entry.
pub(crate) fn new_lines(
    alloc: Global,
    participants: &[Participant],
) -> Result<Vec<PastLine>, AllocError>
    ensures { IfOk result (λ lines. lines.items ≡ map no_entry participants.now) }
{
    let mut lines = Vec::with_capacity(alloc, participants.len())?;
    for who in participants {
        lines.push(PastLine::new(*who))?;
    }
    Ok(lines)
}

/// Returns the lines after these entries.
pub(crate) fn after_entries(
    alloc: Global,
    lines: &[PastLine],
    entries: &[Entry],
) -> Result<Vec<PastLine>, AllocError>
    ensures { IfOk result (λ after. after.items ≡ map (λ line. with_entries line entries.now) lines.now) }
{
    let mut after = Vec::with_capacity(alloc, lines.len())?;
    for line in lines {
        after.push(line.with_entries(entries))?;
    }
    Ok(after)
}
