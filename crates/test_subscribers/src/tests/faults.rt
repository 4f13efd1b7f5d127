//! Engines whose reader or writer fails at its first call, at its second, and so on until a run meets no fault. One run is one
//! function, which returns whether the call came, and a test calls it for each number in turn.

mod batches;
mod fails_at;
mod requests;

use std::process::Abort;

/// More calls than any run makes.
const MOST: u32 = 10_000;

/// Asserts that a run met no fault, the one of this number, and that there were several before it.
fn met_faults<A: Abort>(rt: &A, at: u32) {
    assert!(rt; at > 2 && at < MOST, "{at} runs");
}
