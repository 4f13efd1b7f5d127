//! Tests batches that run out of memory.

use super::super::feed::batch_input;
use batch::{BatchEnd, batch_over};
use sale_matrix::Matrix;
use std::alloc::Global;
use std::process::Abort;
use std::test::Fail;
use std::thread::Threads;

/// The line of a refusal for lack of memory.
const REFUSED: &[u8] = b"refused 40 OutOfMemory\n";

/// The beginning of the report.
const REPORT: &[u8] = b"symbol,";

/// The answers of a whole batch: what comes before its report.
fn answers_of(whole: &[u8]) -> Option<&[u8]> {
    let report = whole
        .windows(REPORT.len())
        .position(|piece| piece == REPORT)?;
    whole.get(..report)
}

/// Returns what a batch that ended so has written, compared with what it writes with ample memory, or `None` if that is not as
/// it must be.
fn kind_of(end: BatchEnd, written: &[u8], whole: &[u8]) -> Option<&'static str> {
    let answers = answers_of(whole)?;
    if end == BatchEnd::Done {
        return (written == whole).then_some("all");
    }
    if end != BatchEnd::OutOfMemory {
        return None;
    }
    if let Some(front) = written.strip_suffix(REFUSED) {
        let is_front = answers.starts_with(front) && front.len() < answers.len();
        return is_front.then_some("answers up to a refusal 40");
    }
    if written.is_empty() {
        return Some("nothing");
    }
    (written == answers).then_some("all answers and no report")
}

/// Runs a batch to its end twice, once with memory if the other was refused it.
fn ends_twice<T: Threads + Abort + Print + Sync>(rt: &T, alloc: Global) -> Result<(), Fail> {
    let input = batch_input(alloc)?;
    let input = input.as_bytes();
    let mut first = Vec::with_capacity(alloc, 4_096)?;
    let mut second = Vec::with_capacity(alloc, 4_096)?;
    let ends = [
        batch_over(rt, alloc, Matrix::One, &mut { input }, &mut first),
        batch_over(rt, alloc, Matrix::One, &mut { input }, &mut second),
    ];
    let whole = if ends[0] == BatchEnd::Done {
        &first
    } else {
        &second
    };
    let kinds = (
        kind_of(ends[0], &first, whole),
        kind_of(ends[1], &second, whole),
    );
    let (Some(first), Some(second)) = kinds else {
        panic!(rt;
            "{:?} and {:?} have written something else",
            ends[0], ends[1]
        )
    };
    println!(rt; "{first}, and then {second}")?;
    Ok(())
}

#[test]
fn a_batch_out_of_memory_has_written_answers_or_nothing(rt: HostRuntime) -> Result<(), Fail> {
    ends_twice(&rt, rt.alloc())
}
