//! The window: a ring of slots which the lines fill, and from which entries are taken by rising number.
ghost use Rattle.std.specs.Prelude.{ℕ, ◌≡◌, ◌+◌, length, IsSome, IfOk, OnOk, OnErr, MatchResult, MatchOption};
ghost use Rattle.tape_frames.specs.Packets.{entries_of};
ghost use Rattle.arbitration.specs.Windows.{IsWindow, empty_slots, empty_window, next_of, window_past};
ghost use Rattle.arbitration.specs.Counts.{brought_by, taken_of};
ghost use Rattle.arbitration.specs.Deliveries.{Accepts, Refuses, window_after};
ghost use Rattle.arbitration.specs.Gaps.{IsGap, IsMissing};

use crate::gap::{ASKED_MOST, empty_run, full_run, span};
use crate::placing::settle;
use crate::refusal::{find_conflict, is_past_end};
use crate::{Brought, DeliverFault, Line, Taken};
use std::alloc::{AllocError, Global};
use std::collections::VecDeque;
use std::marker::Model;
use tape_core::Entry;
use tape_frames::{Packet, Request};

/// How many numbers above its base a window keeps entries of.
pub const REACH: usize = 1_024;

/// The entries of a tape that wait to be taken out, with what was announced of the tape.
///
/// It has one slot for each of the `REACH` numbers above its base. The slots are a ring: taking an entry out moves no other.
/// Only `new` allocates.
#[derive(Debug, Drop)]
pub struct Window {
    session: u64,
    base: u32,
    slots: VecDeque<Option<Entry>>,
    announced: u32,
    ended: Option<u32>,
    brought: Brought,
}

impl Model for Window {
    ghost use Rattle.arbitration.specs.Windows.{WindowState};

    ghost Value = { WindowState };

    ghost use Rattle.arbitration.specs.Inside.{state_of, IsSound};

    ghost view = { state_of };

    ghost invariant = { IsSound };
}

impl Window {
    /// An empty window of a session. It allocates all the window's memory, and returns `AllocError` if that runs out.
    pub fn new(alloc: Global, session: u64) -> Result<Self, AllocError>
        ensures empty { IfOk result (λ w. w ≡ empty_window session) }
    {
        Ok(Window {
            session,
            base: 0,
            slots: empty_slots(alloc)?,
            announced: 0,
            ended: None,
            brought: Brought { a: 0, b: 0, r: 0 },
        })
    }

    /// The session of the packets that it accepts.
    pub fn session(&self) -> u64
        ensures session { result ≡ self.now.session }
    {
        self.session
    }

    /// How many entries were taken out: those numbered 1 to this.
    pub fn base(&self) -> u32
        ensures base { result ≡ self.now.base }
        ensures window { IsWindow self.now }
    {
        self.base
    }

    /// The greatest last number of the packets taken, 0 if there were none. A packet's last number is that of its last entry,
    /// or the number that a beat or an end states.
    pub fn announced(&self) -> u32
        ensures announced { result ≡ self.now.announced }
    {
        self.announced
    }

    /// How many entries the whole tape has, or `None` if no end was taken.
    pub fn ended(&self) -> Option<u32>
        ensures ended { result ≡ self.now.ended }
    {
        self.ended
    }

    /// How many fresh entries one line has brought.
    pub fn brought(&self, line: Line) -> u32
        ensures brought { result ≡ brought_by self.now.brought line }
    {
        self.brought.by(line)
    }

    /// The entry with the number just above the base, or `None` if it has not come.
    pub fn next_ready(&self) -> Option<Entry>
        ensures value { result ≡ next_of self.now }
        ensures window { IsWindow self.now }
    {
        match self.slots.front() {
            Some(Some(entry)) => Some(*entry),
            _ => None,
        }
    }

    /// Takes out the entry that `next_ready` returns; there must be one. The base rises by one, and the freed slot is for the
    /// number that comes into reach.
    pub fn taken(&mut self)
        requires { IsSome (next_of self.old) }
        ensures state { self.new ≡ window_past 1 self.old }
    {
        self.slots[0] = None;
        self.slots.rotate_left(1);
        self.base += 1;
    }

    /// The request to send: for the first numbers that were announced but are neither taken out nor waiting, up to just before
    /// the next waiting entry or to the last number announced, and at most `ASKED_MOST` of them. `None` if no number is
    /// missing.
    pub fn missing(&self) -> Option<Request>
        ensures gap { MatchOption result
            ((n : ℕ) → ¬ (IsMissing self.now n))
            (λ r. (r.session ≡ self.now.session) × IsGap self.now r.from r.count) }
    {
        let full = full_run(&self.slots);
        let from = self.base + 1 + full;
        if from > self.announced {
            return None;
        }
        let most = (self.announced - from + 1).min(ASKED_MOST);
        let count = empty_run(&self.slots, full, most);
        Some(Request {
            session: self.session,
            from,
            count: span(count),
        })
    }

    /// Takes a packet that came by a line. `held` is the entries that were taken out of the window, by number.
    ///
    /// Each entry above the base and at most `REACH` above it is put into the window if its number was not there. Errors, the
    /// first that applies: `Foreign`, `Conflict` with the least number under which `held` or the window has another entry,
    /// `PastEnd`; an error leaves the window unchanged. The same end may come again. It does not allocate, and looks only at
    /// the packet's entries and at what is known under their numbers.
    pub fn deliver(
        &mut self,
        line: Line,
        packet: &Packet,
        held: &[Entry],
    ) -> Result<Taken, DeliverFault>
        requires { length held.now ≡ self.old.base }
        ensures answer { MatchResult result (λ taken. Accepts self.old held.now packet.now) (Refuses self.old held.now packet.now) }
        ensures taken { IfOk result (λ taken. taken ≡ taken_of (self.old.base + 1) self.old.slots (entries_of packet.now)) }
        ensures ok { OnOk result (self.new ≡ window_after self.old line packet.now) }
        ensures err { OnErr result (self.new ≡ self.old) }
    {
        if packet.session() != self.session {
            return Err(DeliverFault::Foreign);
        }
        let entries = packet.entries();
        if let Some(number) = find_conflict(held, self.base, &self.slots, entries) {
            return Err(DeliverFault::Conflict(number));
        }
        let last = packet.last();
        let end = packet.end();
        if is_past_end(self.ended, self.announced, last, end) {
            return Err(DeliverFault::PastEnd);
        }
        let taken = settle(&mut self.slots, self.base, entries);
        self.announced = self.announced.max(last);
        self.ended = end.or(self.ended);
        self.brought.add(line, taken.fresh);
        Ok(taken)
    }
}

/// As many empty slots as a window has.
#[tactic(auto, unfolding(crate::specs::Windows::REACH))]
fn empty_slots<T: Copy>(alloc: Global) -> Result<VecDeque<Option<T>>, AllocError>
    ensures { IfOk result (λ slots. slots.items ≡ empty_slots) }
{
    let mut slots = VecDeque::with_capacity(alloc, REACH)?;
    for _turn in 0..REACH {
        slots.push_back_reserved(None);
    }
    Ok(slots)
}
