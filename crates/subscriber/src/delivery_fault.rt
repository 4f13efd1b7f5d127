//! The faults that delivered bytes are refused with, each with its number and name.
ghost use Rattle.std.specs.Prelude.{◌≡◌, Some};
ghost use Rattle.subscriber.specs.Faults.{delivery_fault_code, delivery_fault_name};

use arbitration::DeliverFault;
use std::fmt;
use tape_frames::PacketFault;
use thiserror::Error;

/// Why bytes that came by a line are refused: the first reason that applies. The subscriber is unchanged.
#[derive(Clone, Copy, Debug, PartialEq, Eq, Error)]
pub enum DeliveryFault {
    /// A drain met an entry that differs from the subscriber's own, and from then on every packet is refused, even a good one.
    Failed,
    /// The bytes are not a packet; this is the first fault from the front.
    NoPacket(PacketFault),
    /// The window refuses the packet with this fault.
    Refused(DeliverFault),
}

impl DeliveryFault {
    /// The number of the fault: 64 if the subscriber has failed, otherwise that of the packet's or the window's fault.
    pub fn code(self) -> u8
        ensures number { result ≡ delivery_fault_code self }
    {
        match self {
            DeliveryFault::Failed => 64,
            DeliveryFault::NoPacket(fault) => fault.code(),
            DeliveryFault::Refused(fault) => fault.code(),
        }
    }

    /// The name of the fault, as printed.
    pub fn name(self) -> &'static str
        ensures text { result.now ≡ delivery_fault_name self }
    {
        match self {
            DeliveryFault::Failed => "Failed",
            DeliveryFault::NoPacket(fault) => fault.name(),
            DeliveryFault::Refused(fault) => fault.name(),
        }
    }
}

impl fmt::Display for DeliveryFault {
    ghost output = { λ e. Some (delivery_fault_name e) };

    fn fmt<W: fmt::Write>(&self, f: &mut fmt::Formatter<W>) -> fmt::Result {
        f.write_str(self.name())
    }
}
