//! Tests a report whose writer fails at its first call, at its second, and so on until a run meets no fault.

use super::rows::report::{FIVE, made};
use day_report::{ReportFault, Row, write_report};
use std::alloc::Global;
use std::io;
use std::io::{ErrorKind, Write};
use std::process::Abort;
use tape_types::NoGate;

/// More calls than any run makes.
const MOST: u32 = 10_000;

/// A writer of at most seven bytes a call, whose call of one number, counted from 1, fails, and no other.
#[derive(Drop)]
struct FailsAt {
    taken: Vec<u8>,
    calls: u32,
    at: u32,
}

impl FailsAt {
    fn call(&mut self) -> io::Result<()> {
        self.calls = self.calls.saturating_add(1);
        if self.calls == self.at {
            return Err(io::Error::from(ErrorKind::BrokenPipe));
        }
        Ok(())
    }
}

impl Write for FailsAt {
    fn write(&mut self, buf: &[u8]) -> io::Result<usize> {
        self.call()?;
        let len = buf.len().min(7);
        self.taken.write(&buf[..len])
    }

    fn flush(&mut self) -> io::Result<()> {
        self.call()
    }
}

/// Whether the write of this number failed: if so, the report had written a prefix of the whole text; if not, all of it.
fn fails_at_write<A: Abort>(rt: &A, alloc: Global, rows: &[Row], at: u32) -> bool {
    let mut writer = FailsAt {
        taken: Vec::new(alloc),
        calls: 0,
        at,
    };
    let end = write_report(alloc, rows, &mut writer);
    let has_failed = writer.calls >= at;
    if has_failed {
        assert!(rt; end == Err(ReportFault::WriteFault), "write {at}");
        assert!(rt; FIVE.starts_with(&writer.taken), "write {at}");
    } else {
        assert!(rt; end.is_ok() && writer.taken.as_slice() == FIVE);
    }
    has_failed
}

/// The number of the run that meets no fault, or the most.
fn first_well<A: Abort>(rt: &A, alloc: Global, rows: &[Row]) -> u32 {
    for at in 1..MOST {
        if !fails_at_write(rt, alloc, rows, at) {
            return at;
        }
    }
    MOST
}

#[test]
fn a_report_ends_at_each_failed_write_with_its_front_written(rt: HostRuntime) {
    let Some(Ok(rows)) = made(&rt, rt.alloc(), 1, &NoGate) else {
        panic!(rt; "there are no rows")
    };
    let at = first_well(&rt, rt.alloc(), &rows);
    assert!(rt; at > 2 && at < MOST, "{at} runs");
}
