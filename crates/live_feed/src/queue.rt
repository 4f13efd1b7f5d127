//! A queue of the entries that a journal has and that are to be published next.
ghost use Rattle.std.specs.Prelude.{◌≡◌, ◌≤◌, ◌↔◌, [], IsTrue, OnErr, OnOk, drop, length};

use std::alloc::{AllocError, Global};
use std::marker::Model;
use tape_core::Entry;

/// The entries that a journal has and that are to be published next, in order.
#[derive(Drop)]
pub(crate) struct Queue {
    /// Those of the last group.
    entries: Vec<Entry>,
    /// How many of them were taken off.
    taken: usize,
}

impl Model for Queue {
    ghost use Rattle.std.specs.Prelude.{◌≤◌, List, drop, length};
    ghost use Rattle.tape_core.specs.declared.entry.Entry.{Entry};

    ghost Value = { List Entry };

    ghost view = { λ q. drop q.taken q.entries.items };

    ghost invariant = { λ q. q.taken ≤ length q.entries.items };
}

impl Queue {
    /// An empty queue. It allocates nothing.
    pub(crate) fn new(alloc: Global) -> Queue
        ensures { result ≡ [] }
    {
        Queue {
            entries: Vec::new(alloc),
            taken: 0,
        }
    }

    /// The entries.
    pub(crate) fn as_slice(&self) -> &[Entry]
        ensures { result.now ≡ self.now }
    {
        &self.entries[self.taken..]
    }

    /// How many there are.
    pub(crate) fn len(&self) -> usize
        ensures { result ≡ length self.now }
    {
        self.entries.len() - self.taken
    }

    /// Replaces the entries with these. If memory runs out the queue is empty.
    pub(crate) fn fill(&mut self, entries: &[Entry]) -> Result<(), AllocError>
        ensures ok { OnOk result (self.new ≡ entries.now) }
        ensures err { OnErr result (self.new ≡ []) }
    {
        self.entries.clear();
        self.taken = 0;
        self.entries.extend_from_slice(entries)
    }

    /// Removes the first `count` entries.
    pub(crate) fn take_off(&mut self, count: usize)
        requires { count ≤ length self.old }
        ensures { self.new ≡ drop count self.old }
    {
        self.taken += count;
    }
}
