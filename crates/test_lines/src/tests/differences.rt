//! Tests where what a participant was told first differs from a tape's entries.

use super::messages::{Sent, message};
use line_ledger::Told;
use line_ledger::laws::first_difference;
use tape_core::Entry;
use tape_types::{Participant, TapeNumber};

fn told(number: u32, sent: Sent) -> Option<Told> {
    Some(Told {
        number: TapeNumber::try_new(number)?,
        message: message(sent)?,
    })
}

fn entry(number: u32, sent: Sent) -> Option<Entry> {
    Some(Entry {
        number: TapeNumber::try_new(number)?,
        message: message(sent)?,
        after: None,
    })
}

/// Where what N was told, 1 and 3, first differs from the front of four entries, of which N has 1, 3 and 4.
fn difference(many: usize, price_of_third: u64) -> Option<Option<usize>> {
    let told = [
        told(1, Sent::Report(b'N', 1, 100_000))?,
        told(3, Sent::Report(b'N', 2, 100_000))?,
    ];
    let entries = [
        entry(1, Sent::Report(b'N', 1, 100_000))?,
        entry(2, Sent::Report(b'Q', 1, 100_000))?,
        entry(3, Sent::Report(b'N', 2, price_of_third))?,
        entry(4, Sent::Report(b'N', 3, 100_000))?,
    ];
    let who = Participant::try_new(b'N')?;
    Some(first_difference(&told, &entries[..many.min(entries.len())], who))
}

#[test]
fn lists_first_differ_where_one_has_another_or_none(rt: HostRuntime) {
    let found = [
        difference(3, 100_001),
        difference(1, 100_000),
        difference(3, 100_000),
        difference(0, 100_000),
        difference(4, 100_000),
    ];
    let wanted = [
        Some(Some(1)),
        Some(Some(1)),
        Some(None),
        Some(Some(0)),
        Some(Some(2)),
    ];
    assert_eq!(rt; found, wanted);
}
