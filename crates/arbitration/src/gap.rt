//! Finds a window's first gap by counting full and empty slots.
ghost use Rattle.std.specs.Prelude.{ℕ, None, ◌≡◌, ◌+◌, ◌≤◌, ◌<◌, length, IsSome, slice_get};
ghost use Rattle.tape_frames.specs.Limits.{IsSpan};
ghost use Rattle.arbitration.specs.Windows.{REACH, flat, ready_entries};

use std::collections::VecDeque;
use tape_core::Entry;
use tape_frames::{LONGEST_SPAN, Span};

/// The most numbers that one request asks for.
pub const ASKED_MOST: u32 = LONGEST_SPAN as u32;

/// How many slots are full before the first empty one.
pub(crate) fn full_run(slots: &VecDeque<Option<Entry>>) -> u32
    requires { length slots.now.items ≡ REACH }
    ensures { result ≡ length (ready_entries slots.now.items) }
{
    let mut full = 0;
    while (full as usize) < slots.len() && slots[full as usize].is_some() {
        full += 1;
    }
    full
}

/// How many consecutive slots are empty, from slot `from` on, at most `most`. Slots past the last one count as empty.
pub(crate) fn empty_run<T: Copy>(slots: &VecDeque<Option<T>>, from: u32, most: u32) -> u32
    requires { from ≤ REACH }
    ensures within { result ≤ most }
    ensures empty { (k : ℕ) → k < result → flat (slice_get slots.now.items (from + k)) ≡ None }
    ensures ends { result < most → IsSome (flat (slice_get slots.now.items (from + result))) }
{
    for k in 0..most {
        if slots
            .get((from as usize) + (k as usize))
            .copied()
            .flatten()
            .is_some()
        {
            return k;
        }
    }
    most
}

/// A count of numbers, as a request states it.
pub(crate) fn span(count: u32) -> Span
    requires { IsSpan count }
    ensures { result ≡ count }
{
    Span::try_new(count as u16).unwrap()
}
