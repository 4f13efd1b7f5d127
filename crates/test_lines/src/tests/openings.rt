//! Tests tapes that are not empty and open.

use super::messages::{Sent, message, tape_of};
use line_ledger::{OpenFault, prepare};
use reports::Message;
use scratch_fold::Mark;
use std::alloc::Global;
use tape_core::IndexedTape;

/// The price of the last report, after the tape has admitted this one.
fn last_after(tape: &mut IndexedTape, report: Option<Message>) -> Option<Mark> {
    let report = report?;
    tape.admit(report).ok()?;
    tape.summary(report.header().symbol)?.last
}

/// Returns what `prepare` returns for a tape that is closed first, or gets an entry first, or neither.
fn opened(alloc: Global, is_closed: bool, is_filled: bool) -> Option<Result<(), OpenFault>> {
    let mut tape = tape_of(alloc, 10)?;
    if is_filled {
        last_after(&mut tape, message(Sent::Report(b'N', 1, 100_000)))?;
    }
    if is_closed {
        tape.close();
    }
    Some(prepare(alloc, tape).map(|_| ()))
}

#[test]
fn an_empty_open_tape_is_prepared_alone(rt: HostRuntime) {
    let alloc = rt.alloc();
    let not_empty = Some(Err(OpenFault::NotEmpty));
    let answers = [
        opened(alloc, false, false),
        opened(alloc, true, false),
        opened(alloc, false, true),
    ];
    assert_eq!(rt; answers, [Some(Ok(())), not_empty, not_empty]);
}
