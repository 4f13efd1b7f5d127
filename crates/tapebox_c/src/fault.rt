//! The faults of the calls from another language, and their numbers.
ghost use Rattle.std.specs.Prelude.{◌≡◌};
ghost use Rattle.tapebox_c.specs.Faults.{fault_code};

use reports::MessageFault;
use retransmit::AskFault;
use subscriber::{DeliveryFault, Stop};
use tape_core::{Refusal, TapeFault};
use tape_frames::{PacketFault, RequestFault};
use tape_types::HeaderFault;

/// Why a call did nothing, by the number that it returns. 0 is no fault.
#[derive(Clone, Copy)]
pub enum CallFault {
    /// The handle holds no tape.
    NoTape,
    /// The handle holds no subscriber.
    NoSubscriber,
    /// The handle holds something already.
    InUse,
    /// The matrix is neither 1 nor 2.
    BadMatrix,
    /// The tape has no entry of that number, or the packet or the answer has nothing at that place.
    NoEntry,
    /// The line is none of 0 (A), 1 (B) and 2 (retransmission).
    NoLine,
    /// The bytes are not as many as a request has.
    NoRequest,
    /// The row is shorter than the answer.
    NoRoom,
    /// Memory ran out for a packet, an answer, a table or a text.
    OutOfMemory,
    /// The handle holds no table.
    NoTable,
    /// The bytes are no table, or the names in it make no listing.
    BadTable,
    /// The names make no listing.
    NoListing(HeaderFault),
    /// No tape can be made.
    NotMade(TapeFault),
    /// The bytes are no message.
    NoMessage(MessageFault),
    /// Bytes follow the message.
    ExtraBytes,
    /// The tape refuses the message.
    Refused(Refusal),
    /// The subscriber refuses the bytes.
    NotDelivered(DeliveryFault),
    /// The drain stopped.
    Stopped(Stop),
    /// The bytes are no packet, or no packet can hold the number asked for.
    NoPacket(PacketFault),
    /// The bytes are no request.
    BadRequest(RequestFault),
    /// The bytes are no answer with packets.
    NotAnswered(AskFault),
}

impl CallFault {
    /// The number of the fault.
    pub fn code(self) -> u32
        ensures number { result ≡ fault_code self }
    {
        match self {
            CallFault::NoTape => 101,
            CallFault::NoSubscriber => 102,
            CallFault::InUse => 103,
            CallFault::BadMatrix => 104,
            CallFault::NoEntry => 105,
            CallFault::NoLine => 106,
            CallFault::NoRequest => 107,
            CallFault::NoRoom => 108,
            CallFault::OutOfMemory => 109,
            CallFault::NoTable => 110,
            CallFault::BadTable => 111,
            CallFault::NoListing(fault) => u32::from(fault.code()),
            CallFault::NotMade(fault) => u32::from(fault.code()),
            CallFault::NoMessage(fault) => u32::from(fault.code()),
            CallFault::ExtraBytes => 23,
            CallFault::Refused(refusal) => u32::from(refusal.code()),
            CallFault::NotDelivered(fault) => u32::from(fault.code()),
            CallFault::Stopped(stop) => u32::from(stop.code()),
            CallFault::NoPacket(fault) => u32::from(fault.code()),
            CallFault::BadRequest(fault) => u32::from(fault.code()),
            CallFault::NotAnswered(fault) => u32::from(fault.code()),
        }
    }
}
