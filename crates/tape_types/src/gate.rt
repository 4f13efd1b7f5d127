//! A gate called between the steps of workers, and a test whether a worker can be started.

use std::thread;
use std::thread::Threads;

/// A callback between the steps of a worker, so that a test can hold the worker there. A gate changes no result: its caller
/// promises the same whatever it does.
pub trait Gate {
    /// Called once after each step of a worker: `worker` is its number from 0, and `turn` is how many of its steps are done,
    /// from 1. It may wait if its implementation may.
    fn between(&self, worker: usize, turn: u32);
}

/// A gate that never waits.
#[derive(Clone, Copy, Debug, PartialEq, Eq)]
pub struct NoGate;

impl Gate for NoGate {
    fn between(&self, _worker: usize, _turn: u32) {}
}

/// Whether a thread can be started: it starts one that does nothing and waits for its end. No clause can say whether a machine
/// has a thread left, so tests show that `can_start` returns `false` exactly when it has none.
pub fn can_start<T: Threads>(rt: &T) -> bool {
    match thread::spawn(rt, || ()) {
        Ok(worker) => {
            worker.join(rt);
            true
        }
        Err(_) => false,
    }
}
