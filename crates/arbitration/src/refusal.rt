//! Finds the reasons to refuse a packet: a conflicting entry, or a number past the end.
ghost use Rattle.std.specs.Prelude.{◌≡◌, ◌+◌, ◌≤◌, ◌↔◌, ◌||◌, length, IsTrue, MatchOption, All};
ghost use Rattle.tape_types.specs.Ranges.{TAPE_MOST};
ghost use Rattle.tape_frames.specs.PacketEntries.{IsEmptyOrRow};
ghost use Rattle.arbitration.specs.Deliveries.{Agrees, IsLeastConflict, is_beyond, is_other_end};

use std::collections::VecDeque;
use tape_core::Entry;
use tape_types::TapeNumber;

/// The least number under which both the packet and the window, or `held`, have an entry, and the two differ.
pub(crate) fn find_conflict(
    held: &[Entry],
    base: u32,
    slots: &VecDeque<Option<Entry>>,
    entries: &[Entry],
) -> Option<TapeNumber>
    requires base { length held.now ≡ base }
    requires within { base ≤ TAPE_MOST }
    requires row { IsEmptyOrRow entries.now }
    ensures { MatchOption result
        (All (Agrees held.now (base + 1) slots.now.items) entries.now)
        (IsLeastConflict held.now (base + 1) slots.now.items entries.now) }
{
    for entry in entries {
        if !agrees(held, base, slots, entry) {
            return Some(entry.number);
        }
    }
    None
}

/// Whether no different entry is known under this entry's number. It looks at one known entry and copies none.
fn agrees(held: &[Entry], base: u32, slots: &VecDeque<Option<Entry>>, entry: &Entry) -> bool
    requires base { length held.now ≡ base }
    requires within { base ≤ TAPE_MOST }
    ensures { IsTrue result ↔ Agrees held.now (base + 1) slots.now.items entry.now }
{
    let number = entry.number.value();
    if number <= base {
        return held[number as usize - 1] == *entry;
    }
    match slots.get((number - base - 1) as usize) {
        Some(Some(waiting)) => waiting == entry,
        Some(None) | None => true,
    }
}

/// Whether a packet's last number or its end contradicts what is known of the end.
pub(crate) fn is_past_end(ended: Option<u32>, announced: u32, last: u32, end: Option<u32>) -> bool
    ensures { result ≡ (is_beyond ended last || is_other_end ended announced end) }
{
    match (ended, end) {
        (Some(count), Some(other)) => last > count || other != count,
        (Some(count), None) => last > count,
        (None, Some(count)) => count < announced,
        (None, None) => false,
    }
}
