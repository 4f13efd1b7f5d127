//! Computes how far a participant's line had come, from the entries of a journal.
ghost use Rattle.std.specs.Prelude.{◌≡◌};
ghost use Rattle.journal_start.specs.PastLines.{no_entry, with_entries, with_entry};

use tape_core::Entry;
use tape_types::Participant;

/// How far a participant's line had come, by the entries of a journal.
#[derive(Clone, Copy, Debug, PartialEq, Eq)]
pub struct PastLine {
    /// The participant.
    pub who: Participant,
    /// How many of its messages were admitted.
    pub admitted: u32,
    /// The number of the last of them, or 0 if there is none.
    pub last: u32,
}

impl PastLine {
    /// Returns the line of a participant without an entry.
    pub(crate) fn new(who: Participant) -> PastLine
        ensures { result ≡ no_entry who }
    {
        PastLine {
            who,
            admitted: 0,
            last: 0,
        }
    }

    /// Returns the line after one more entry, which may be another participant's.
    fn with_entry(self, entry: &Entry) -> PastLine
        ensures { result ≡ with_entry self entry.now }
    {
        let header = entry.message.header();
        if header.participant == self.who {
            PastLine {
                who: self.who,
                admitted: self.admitted.saturating_add(1),
                last: header.number.value(),
            }
        } else {
            self
        }
    }

    /// Returns the line after these entries, which are of all participants.
    #[tactic(auto, using(crate::proofs::GroupLemmas::one_more))]
    pub(crate) fn with_entries(self, entries: &[Entry]) -> PastLine
        ensures { result ≡ with_entries self entries.now }
    {
        let mut line = self;
        for entry in entries {
            line = line.with_entry(entry);
        }
        line
    }
}
