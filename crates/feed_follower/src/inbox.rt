//! Keeps the datagrams that lines brought while another thread had the follower, in their order.
ghost use Rattle.std.specs.Prelude.{◌≡◌, ◌≤◌, ◌↔◌, ◌∷◌, ◌++◌, [], IfErr, IfOk, IsTrue, OnOk};
ghost use Rattle.std.specs.Option.{option_to_list};
ghost use Rattle.std.specs.VecDeque.{deque_capacity, deque_len};
ghost use Rattle.feed_follower.specs.declared.inbox.TheConstants.{KEPT_MOST};

use arbitration::Line;
use std::alloc::{AllocError, Global};
use std::collections::VecDeque;

/// The most datagrams that are kept. A line that brings more waits for the follower.
const KEPT_MOST: usize = 1_024;

/// A datagram that a line brought.
#[derive(Drop)]
pub(crate) struct Datagram {
    pub(crate) line: Line,
    pub(crate) bytes: Vec<u8>,
}

impl Datagram {
    /// Copies the bytes of a datagram that came by a line. `AllocError` if memory runs out.
    pub(crate) fn new(alloc: Global, line: Line, bytes: &[u8]) -> Result<Datagram, AllocError>
        ensures line { IfOk result (λ datagram. datagram.line ≡ line) }
        ensures bytes { IfOk result (λ datagram. datagram.bytes.items ≡ bytes.now) }
    {
        let bytes = Vec::from_slice(alloc, bytes)?;
        Ok(Datagram { line, bytes })
    }
}

/// The datagrams that wait for the follower, in the order in which they came.
#[derive(Drop)]
pub(crate) struct Inbox {
    datagrams: VecDeque<Datagram>,
    ghost roomy: { KEPT_MOST ≤ deque_capacity datagrams },
}

impl Inbox {
    /// An empty inbox. All memory for the list is allocated here; `AllocError` if it runs out.
    pub(crate) fn nothing(alloc: Global) -> Result<Inbox, AllocError>
        ensures { IfOk result (λ kept. kept.datagrams.items ≡ []) }
    {
        let datagrams = VecDeque::with_capacity(alloc, KEPT_MOST)?;
        Ok(Inbox { datagrams })
    }

    /// Keeps a datagram, or returns it if there are `KEPT_MOST` already.
    pub(crate) fn keep(&mut self, datagram: Datagram) -> Result<(), Datagram>
        ensures ok { OnOk result (self.new.datagrams.items ≡ self.old.datagrams.items ++ datagram ∷ []) }
        ensures err { IfErr result (λ other. (other ≡ datagram) × (self.new.datagrams.items ≡ self.old.datagrams.items)) }
        ensures full { IfErr result (λ other. KEPT_MOST ≤ deque_len self.old.datagrams) }
    {
        if KEPT_MOST <= self.datagrams.len() {
            return Err(datagram);
        }
        self.datagrams.push_back_reserved(datagram);
        Ok(())
    }

    /// Removes and returns the datagram that was kept first.
    pub(crate) fn next(&mut self) -> Option<Datagram>
        ensures { self.old.datagrams.items ≡ option_to_list result ++ self.new.datagrams.items }
    {
        self.datagrams.pop_front()
    }

    /// Whether nothing is kept.
    pub(crate) fn is_empty(&self) -> bool
        ensures { IsTrue result ↔ (self.now.datagrams.items ≡ []) }
    {
        self.datagrams.is_empty()
    }
}
