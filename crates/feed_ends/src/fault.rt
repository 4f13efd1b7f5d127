//! The faults that end a day without a report, each with its status.
ghost use Rattle.std.specs.Prelude.{◌≡◌, ◌↔◌, ◌⊎◌, ◌≤◌, Some, None, IfSome};
ghost use Rattle.feed_ends.specs.Faults.{fault_status};
ghost use Rattle.feed_ends.specs.declared.fault.Fault.TheVariants.{Disagrees, Memory};
ghost use Rattle.tape_core.specs.declared.tape_fault.TapeFault.TheVariants.{BadLimit, OutOfMemory as TapeOutOfMemory};

use tape_core::TapeFault;

/// What ends a day without a report, in the order of the statuses.
#[derive(Clone, Copy, Debug, PartialEq, Eq)]
pub enum Fault {
    /// A socket could not be opened, a connection was not accepted, a read failed, or there is not one listener for each
    /// participant.
    Read,
    /// A write or a flush failed.
    Write,
    /// Memory ran out.
    Memory,
    /// No thread could be started.
    Worker,
    /// The tape is not what was told of it, or its limit is outside 1 to `TAPE_MOST`.
    Disagrees,
}

impl Fault {
    /// Returns the status of the fault, 3 to 7.
    pub fn status(self) -> u8
        ensures status { result ≡ fault_status self }
        ensures range { (3 ≤ result) × (result ≤ 7) }
    {
        match self {
            Fault::Read => 3,
            Fault::Write => 4,
            Fault::Memory => 5,
            Fault::Worker => 6,
            Fault::Disagrees => 7,
        }
    }

    /// Returns the one of two faults that has the lower status, or `None` if there is neither.
    pub fn least(one: Option<Fault>, other: Option<Fault>) -> Option<Fault>
        ensures none { (result ≡ None) ↔ ((one ≡ None) × (other ≡ None)) }
        ensures either { IfSome result (λ fault. (one ≡ Some fault) ⊎ (other ≡ Some fault)) }
        ensures one { IfSome result (λ fault. IfSome one (λ f. fault_status fault ≤ fault_status f)) }
        ensures other { IfSome result (λ fault. IfSome other (λ f. fault_status fault ≤ fault_status f)) }
    {
        match (one, other) {
            (Some(one), Some(other)) if other.status() < one.status() => Some(other),
            (Some(fault), _) | (None, Some(fault)) => Some(fault),
            (None, None) => None,
        }
    }
}

impl From<TapeFault> for Fault {
    ghost from_gives = { λ fault day. (fault ≡ BadLimit → day ≡ Disagrees) × (fault ≡ TapeOutOfMemory → day ≡ Memory) };

    fn from(fault: TapeFault) -> Fault {
        match fault {
            TapeFault::BadLimit => Fault::Disagrees,
            TapeFault::OutOfMemory => Fault::Memory,
        }
    }
}
