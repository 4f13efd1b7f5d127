//! Compares the last entries of a source with given ones.
ghost use Rattle.std.specs.Prelude.{◌≡◌, ◌+◌, Some, drop, length, true};
ghost use Rattle.tape_frames.specs.Sources.{entry_of};

use tape_core::Entry;
use tape_frames::Source;

/// Whether the source has this entry under the number.
fn has_entry<S: Source>(source: &S, number: u32, entry: &Entry) -> bool
    ensures { result ≡ true → entry_of (S.list source.now) number ≡ Some entry.now }
{
    match source.entry(number) {
        Some(found) => found.is_same(entry),
        None => false,
    }
}

/// Whether the entries that a source has after its first `before` are these.
pub(crate) fn ends_with<S: Source>(source: &S, before: u32, entries: &[Entry]) -> bool
    requires many { before + length entries.now ≡ length (S.list source.now) }
    ensures { result ≡ true → drop before (S.list source.now) ≡ entries.now }
{
    // For the proof alone: by the clauses of this call the source has no more entries than a number can say.
    let _ = source.published();
    for at in 0..entries.len() {
        if !has_entry(source, before + 1 + at as u32, &entries[at]) {
            return false;
        }
    }
    true
}
