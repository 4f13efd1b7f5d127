//! The errors of a day's end, with the tape and the seats that they return.
ghost use Rattle.std.specs.Prelude.{◌≡◌, codes};
ghost use Rattle.line_ledger.specs.declared.end_fault.EndFault.TheVariants.{MissingSeat, Disagrees};

use crate::{DayName, LineSeat, SharedTape};
use tape_core::IndexedTape;
use tape_types::Participant;

/// A day that did not end. Its seats must be spent by an end with one seat of each participant.
pub struct Unended<D: DayName> {
    /// The shared tape, which is open.
    pub shared: SharedTape<D>,
    /// The seats that were given.
    pub seats: Vec<LineSeat<D>>,
}

/// 92 Disagrees: an ended day whose tape is not what its seats were told.
#[derive(Drop)]
pub struct Disagreement {
    /// The first participant, in listing order, whose seat was told otherwise.
    pub participant: Participant,
    /// The first position, from 0, where what the seat was told differs from the participant's entries.
    pub at: usize,
    /// The day's tape, which is closed.
    pub tape: IndexedTape,
}

/// Why a day did not end, or ended in a disagreement. It must be spent, like the seats that it may hold.
pub enum EndFault<D: DayName> {
    /// 91 MissingSeat: there is not exactly one seat of each participant. It has the open tape and the seats.
    MissingSeat(Unended<D>),
    /// 92 Disagrees: a seat was not told what the tape has of its participant. It has the closed tape; the seats are spent.
    Disagrees(Disagreement),
}

impl Disagreement {
    /// The number of the fault.
    pub fn code(&self) -> u8
        ensures number { result ≡ 92 }
    {
        92
    }

    /// The name of the fault, as in the profile.
    pub fn name(&self) -> &'static str
        ensures text { result.now ≡ codes "Disagrees" }
    {
        "Disagrees"
    }
}

impl<D: DayName> EndFault<D> {
    /// The number of the fault.
    pub fn code(&self) -> u8
        ensures missing { (unended : _) → self.now ≡ MissingSeat unended → result ≡ 91 }
        ensures disagrees { (disagreement : _) → self.now ≡ Disagrees disagreement → result ≡ 92 }
    {
        match self {
            EndFault::MissingSeat(_) => 91,
            EndFault::Disagrees(disagreement) => disagreement.code(),
        }
    }

    /// The name of the fault, as in the profile.
    pub fn name(&self) -> &'static str
        ensures missing { (unended : _) → self.now ≡ MissingSeat unended → result.now ≡ codes "MissingSeat" }
        ensures disagrees { (disagreement : _) → self.now ≡ Disagrees disagreement → result.now ≡ codes "Disagrees" }
    {
        match self {
            EndFault::MissingSeat(_) => "MissingSeat",
            EndFault::Disagrees(disagreement) => disagreement.name(),
        }
    }
}
