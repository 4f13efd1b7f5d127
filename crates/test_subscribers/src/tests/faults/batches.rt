//! Tests a batch whose reader or writer fails.

use super::super::feed::batch_input;
use super::fails_at::FailsAt;
use super::{MOST, met_faults};
use batch::{BatchEnd, batch_over};
use sale_matrix::Matrix;
use std::alloc::Global;
use std::process::Abort;
use std::test::Fail;
use std::thread::Threads;

/// Whether the read of this number failed: if so, the batch wrote nothing; if not, its whole text.
fn fails_at_read<T: Threads + Abort + Sync>(
    rt: &T,
    alloc: Global,
    input: &[u8],
    text: &[u8],
    at: u32,
) -> bool {
    let mut reader = FailsAt::new(input, 100, at);
    let mut output = Vec::new(alloc);
    let end = batch_over(rt, alloc, Matrix::One, &mut reader, &mut output);
    if reader.has_failed() {
        assert!(rt;
            end == BatchEnd::ReadFault && output.is_empty(),
            "read {at}"
        );
        return true;
    }
    assert!(rt; end == BatchEnd::Done && output.as_slice() == text);
    false
}

/// Whether the write or the flush of this number failed: if so, the batch had written a prefix of the whole text; if not, all
/// of it.
fn fails_at_write<T: Threads + Abort + Sync>(
    rt: &T,
    alloc: Global,
    input: &[u8],
    text: &[u8],
    at: u32,
) -> bool {
    let mut reader = input;
    let mut writer = FailsAt::new(Vec::new(alloc), 7, at);
    let end = batch_over(rt, alloc, Matrix::One, &mut reader, &mut writer);
    let written = writer.inner.as_slice();
    if writer.has_failed() {
        assert_eq!(rt; end, BatchEnd::WriteFault, "write {at}");
        assert!(rt; text.starts_with(written), "write {at}");
        return true;
    }
    assert!(rt; end == BatchEnd::Done && written == text);
    false
}

/// The number of the run that meets no failed read, or the most.
fn first_read<T: Threads + Abort + Sync>(rt: &T, alloc: Global, input: &[u8], text: &[u8]) -> u32 {
    for at in 1..MOST {
        if !fails_at_read(rt, alloc, input, text, at) {
            return at;
        }
    }
    MOST
}

/// The same for writes.
fn first_written<T: Threads + Abort + Sync>(
    rt: &T,
    alloc: Global,
    input: &[u8],
    text: &[u8],
) -> u32 {
    for at in 1..MOST {
        if !fails_at_write(rt, alloc, input, text, at) {
            return at;
        }
    }
    MOST
}

#[test]
fn a_batch_ends_at_each_failed_read_or_write(rt: HostRuntime) -> Result<(), Fail> {
    let input = batch_input(rt.alloc())?;
    let input = input.as_bytes();
    let mut text = Vec::new(rt.alloc());
    let end = batch_over(&rt, rt.alloc(), Matrix::One, &mut { input }, &mut text);
    assert!(rt; end == BatchEnd::Done && text.starts_with(b"1\n2\n3\n"));
    met_faults(&rt, first_read(&rt, rt.alloc(), input, &text));
    met_faults(&rt, first_written(&rt, rt.alloc(), input, &text));
    Ok(())
}
