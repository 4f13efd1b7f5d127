//! The keys of a day's file, each with its name and the range of its values.
ghost use Rattle.std.specs.Prelude.{◌≡◌, Some};
ghost use Rattle.day_terms.specs.Keys.{is_key, key_least, key_most, key_text};

use std::fmt;
use tape_types::TAPE_MOST;

/// A key of a day's file.
#[derive(Clone, Copy, Debug, PartialEq, Eq)]
pub enum DayKey {
    /// `symbols`: a list of the day's symbols, or the name of a file that has one per line.
    Symbols,
    /// `participants`: a list of the day's participants, each by its letter.
    Participants,
    /// `port`: the first participant's port, 1 to 65,535. Each further participant has the next port.
    Port,
    /// `a`: line A's ports, 1 to 65,535, one for each follower's place.
    A,
    /// `b`: line B's ports, as many as for line A.
    B,
    /// `retransmission`: the port of the retransmission, 1 to 65,535.
    Retransmission,
    /// `followers`: how many retransmission connections are served, 0 to 65,535.
    Followers,
    /// `session`: the session of the tape's packets, 0 to 9,223,372,036,854,775,807.
    Session,
    /// `matrix`: the tape's matrix, 1 or 2.
    Matrix,
    /// `limit`: the limit of the tape in entries, 1 to 16,777,216.
    Limit,
    /// `connect_within`: how many seconds to wait for a peer that is not there yet, 1 to 86,400.
    ConnectWithin,
    /// `followers_wait`: how many seconds after the end followers may still ask, 0 to 86,400.
    FollowersWait,
    /// `control`: where the control socket is: a port of this machine, 1 to 65,535, or the path of a UNIX socket.
    Control,
    /// `journal`: the path of the file that `live` keeps the day in.
    Journal,
    /// `journal_sync`: whether the journal is synced before what it has is sent.
    JournalSync,
}

/// The greatest number of seconds in a day's file: those of one day.
const SECONDS_MOST: u64 = 86_400;

/// All keys.
const KEYS: [DayKey; 15] = [
    DayKey::Symbols,
    DayKey::Participants,
    DayKey::Port,
    DayKey::A,
    DayKey::B,
    DayKey::Retransmission,
    DayKey::Followers,
    DayKey::Session,
    DayKey::Matrix,
    DayKey::Limit,
    DayKey::ConnectWithin,
    DayKey::FollowersWait,
    DayKey::Control,
    DayKey::Journal,
    DayKey::JournalSync,
];

impl DayKey {
    /// Returns the name of the key, as the file spells it.
    pub fn name(self) -> &'static str
        ensures text { result.now ≡ key_text self }
    {
        match self {
            DayKey::Symbols => "symbols",
            DayKey::Participants => "participants",
            DayKey::Port => "port",
            DayKey::A => "a",
            DayKey::B => "b",
            DayKey::Retransmission => "retransmission",
            DayKey::Followers => "followers",
            DayKey::Session => "session",
            DayKey::Matrix => "matrix",
            DayKey::Limit => "limit",
            DayKey::ConnectWithin => "connect_within",
            DayKey::FollowersWait => "followers_wait",
            DayKey::Control => "control",
            DayKey::Journal => "journal",
            DayKey::JournalSync => "journal_sync",
        }
    }

    /// Returns the least and the greatest number that the key or its list may have.
    pub(crate) fn range(self) -> (u64, u64)
        ensures least { result.0 ≡ key_least self }
        ensures most { result.1 ≡ key_most self }
    {
        match self {
            DayKey::Followers => (0, 65_535),
            DayKey::Session => (0, 9_223_372_036_854_775_807),
            DayKey::Matrix => (1, 2),
            DayKey::Limit => (1, u64::from(TAPE_MOST)),
            DayKey::ConnectWithin => (1, SECONDS_MOST),
            DayKey::FollowersWait => (0, SECONDS_MOST),
            _ => (1, 65_535),
        }
    }

    /// Returns what the key or its list may have, in words.
    pub(crate) fn range_text(self) -> &'static str {
        match self {
            DayKey::Symbols => "1 to 8 of A to Z, 0 to 9 and .",
            DayKey::Participants => "one letter A to Z",
            DayKey::Followers => "0 to 65535",
            DayKey::Session => "0 to 9223372036854775807",
            DayKey::Matrix => "1 or 2",
            DayKey::Limit => "1 to 16777216",
            DayKey::ConnectWithin => "1 to 86400",
            DayKey::FollowersWait => "0 to 86400",
            DayKey::Control => "1 to 65535 or a path",
            DayKey::Journal => "a path",
            DayKey::JournalSync => "true or false",
            _ => "1 to 65535",
        }
    }
}

impl fmt::Display for DayKey {
    ghost output = { λ key. Some (key_text key) };

    fn fmt<W: fmt::Write>(&self, f: &mut fmt::Formatter<W>) -> fmt::Result {
        f.write_str(self.name())
    }
}

/// Returns whether a day's file may have a key of this name.
#[tactic(auto, unfolding(crate::specs::Keys::is_key))]
pub(crate) fn is_key(name: &str) -> bool
    ensures { result ≡ is_key name.now }
{
    KEYS.iter().any(|key| key.name() == name)
}
