//! Replays the entries of a journal on a tape, one after the other, until one is not the tape's next entry.
ghost use Rattle.std.specs.Prelude.{◌≡◌, IfErr, OnOk};
ghost use Rattle.day_journal.specs.Replays.{StopsReplay, with_entries};

use summaries::Store;
use tape_core::{Entry, Refusal, Tape};

/// Why a replay stopped: the first entry that is not the tape's next one.
#[derive(Clone, Copy, Debug, PartialEq, Eq)]
pub enum ReplayFault {
    /// The tape refuses the entry of this number, as `Tape::replay` does. It has the entries before it.
    Refused {
        /// The number of the entry.
        number: u32,
        /// The tape's refusal.
        refusal: Refusal,
    },
    /// The tape makes another entry of the message: the journal's entry carries other content than the tape's. The tape then
    /// has its own entry.
    Differs {
        /// The number of the entry.
        number: u32,
    },
}

/// Replays the entries of a group on a tape, one after the other. The tape then has them, and no others, after its earlier
/// entries.
pub fn replay_entries<S: Store>(tape: &mut Tape<S>, entries: &[Entry]) -> Result<(), ReplayFault>
    ensures ok { OnOk result (tape.new ≡ with_entries tape.old entries.now) }
    ensures stops { IfErr result (λ f. StopsReplay f tape.old entries.now tape.new) }
{
    for entry in entries {
        let number = entry.number.value();
        match tape.replay(entry.number, entry.message) {
            Ok(own) => {
                if !own.is_same(entry) {
                    return Err(ReplayFault::Differs { number });
                }
            }
            Err(refusal) => return Err(ReplayFault::Refused { number, refusal }),
        }
    }
    Ok(())
}
