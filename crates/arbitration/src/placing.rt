//! Puts the entries of a packet into their slots and counts the outcomes.
ghost use Rattle.std.specs.Prelude.{◌≡◌, ◌+◌, ◌≤◌, ◌∷◌, [], is_some, count_by};
ghost use Rattle.tape_types.specs.Ranges.{TAPE_MOST};
ghost use Rattle.tape_frames.specs.PacketEntries.{IsEmptyOrRow};
ghost use Rattle.arbitration.specs.Counts.{fresh_count, placing_of, taken_of};
ghost use Rattle.arbitration.specs.Deliveries.{slots_after};

use crate::Taken;
use crate::taken::Placing;
use std::collections::VecDeque;
use tape_core::Entry;

/// Puts each entry into its slot, if there is one and it is empty, and counts the outcomes.
pub(crate) fn settle(slots: &mut VecDeque<Option<Entry>>, base: u32, entries: &[Entry]) -> Taken
    requires row { IsEmptyOrRow entries.now }
    requires within { base ≤ TAPE_MOST }
    ensures slots { slots.new.items ≡ slots_after (base + 1) slots.old.items entries.now }
    ensures taken { result ≡ taken_of (base + 1) slots.old.items entries.now }
    ensures count { count_by is_some slots.new.items ≡ count_by is_some slots.old.items + result.fresh }
{
    let mut taken = Taken {
        fresh: 0,
        repeated: 0,
        beyond: 0,
    };
    for entry in entries {
        taken.count(put(slots, base, entry));
    }
    taken
}

/// Puts one entry into its slot, if there is one and it is empty.
fn put(slots: &mut VecDeque<Option<Entry>>, base: u32, entry: &Entry) -> Placing
    requires within { base ≤ TAPE_MOST }
    ensures slots { slots.new.items ≡ slots_after (base + 1) slots.old.items (entry.now ∷ []) }
    ensures placing { result ≡ placing_of (base + 1) slots.old.items entry.now }
    ensures count { count_by is_some slots.new.items ≡ count_by is_some slots.old.items + fresh_count result }
{
    let number = entry.number.value();
    if number <= base {
        return Placing::Repeated;
    }
    let place = (number - base - 1) as usize;
    if place >= slots.len() {
        return Placing::Beyond;
    }
    if slots[place].is_some() {
        return Placing::Repeated;
    }
    slots[place] = Some(*entry);
    Placing::Fresh
}
