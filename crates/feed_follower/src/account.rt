//! Counts what a follower heard of a day, and what became of it.
ghost use Rattle.std.specs.Prelude.{◌≡◌};
ghost use Rattle.feed_follower.specs.Accounts.{account_with, with_heard, dropped, new_account, once_asked, once_differing, once_other};

use crate::heard::Heard;
use arbitration::Line;

/// What came by a line, in packets. A count that has reached the greatest number of its type stays there.
#[derive(Clone, Copy, Debug, PartialEq, Eq)]
pub struct LineCounts {
    /// Datagrams, or packets of answers, taken or dropped.
    pub packets: u64,
    /// Dropped because they are no packet.
    pub no_packet: u64,
    /// Dropped because they are of another session.
    pub foreign: u64,
    /// Dropped because another entry was known under one of their numbers.
    pub conflict: u64,
    /// Dropped because they did not fit what was known of the day's end.
    pub past_end: u64,
    /// Entries that the line was the first to bring.
    pub entries: u32,
}

/// What a follower heard of a day, and what became of it.
#[derive(Clone, Copy, Debug, PartialEq, Eq)]
pub struct FollowAccount {
    /// The session that it was told to follow.
    pub session: u64,
    /// What came by line A.
    pub a: LineCounts,
    /// What came by line B.
    pub b: LineCounts,
    /// What came by retransmission.
    pub retransmission: LineCounts,
    /// How many requests were answered or failed.
    pub asked: u64,
    /// The first other session that it heard, or `None` if it heard none.
    pub other_session: Option<u64>,
    /// The first number under which a packet of the session had another entry than the one known, or `None` if there was none.
    pub conflict: Option<u32>,
    /// How many numbers the retransmission was still to be asked for because packets did not agree on them.
    pub unsettled: u32,
    /// How many entries are held.
    pub held: u32,
}

impl LineCounts {
    /// The counts of a line that brought nothing.
    fn nothing() -> LineCounts
        ensures { result ≡ record { packets = 0; no_packet = 0; foreign = 0; conflict = 0; past_end = 0; entries = 0 } }
    {
        LineCounts {
            packets: 0,
            no_packet: 0,
            foreign: 0,
            conflict: 0,
            past_end: 0,
            entries: 0,
        }
    }

    /// Counts a packet by what became of it.
    fn count(&mut self, heard: Heard)
        ensures { self.new ≡ with_heard heard self.old }
    {
        self.packets = self.packets.saturating_add(1);
        match heard {
            Heard::Taken => {}
            Heard::NoPacket => self.no_packet = self.no_packet.saturating_add(1),
            Heard::Foreign => self.foreign = self.foreign.saturating_add(1),
            Heard::Conflict(_) => self.conflict = self.conflict.saturating_add(1),
            Heard::PastEnd => self.past_end = self.past_end.saturating_add(1),
        }
    }

    /// Returns how many packets were dropped.
    pub fn dropped(&self) -> u128
        ensures { result ≡ dropped self.now }
    {
        u128::from(self.no_packet)
            + u128::from(self.foreign)
            + u128::from(self.conflict)
            + u128::from(self.past_end)
    }
}

impl FollowAccount {
    /// The account of a follower that has heard nothing yet.
    pub(crate) fn nothing(session: u64) -> FollowAccount
        ensures { result ≡ new_account session }
    {
        FollowAccount {
            session,
            a: LineCounts::nothing(),
            b: LineCounts::nothing(),
            retransmission: LineCounts::nothing(),
            asked: 0,
            other_session: None,
            conflict: None,
            unsettled: 0,
            held: 0,
        }
    }

    /// Counts a packet that came by a line.
    pub(crate) fn count(&mut self, line: Line, heard: Heard)
        ensures counts { self.new ≡ account_with line heard self.old }
        ensures session { self.new.session ≡ self.old.session }
    {
        match line {
            Line::A => self.a.count(heard),
            Line::B => self.b.count(heard),
            Line::R => self.retransmission.count(heard),
        }
    }

    /// Counts a request.
    pub(crate) fn ask(&mut self)
        ensures { self.new ≡ once_asked self.old }
    {
        self.asked = self.asked.saturating_add(1);
    }

    /// Notes another session that was heard, unless one is noted.
    pub(crate) fn name(&mut self, session: u64)
        ensures { self.new ≡ once_other session self.old }
    {
        self.other_session = self.other_session.or(Some(session));
    }

    /// Notes a number on which packets did not agree, unless one is noted.
    pub(crate) fn differ(&mut self, number: u32)
        ensures { self.new ≡ once_differing number self.old }
    {
        self.conflict = self.conflict.or(Some(number));
    }
}
