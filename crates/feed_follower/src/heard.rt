//! Delivers what a line brought to the subscriber, and says what became of it.
ghost use Rattle.std.specs.Prelude.{◌≡◌, Err, IfOk, IsOk, false, true};
ghost use Rattle.feed_ends.specs.declared.fault.Fault.TheVariants.{Disagrees};
ghost use Rattle.feed_follower.specs.Followers.{Comes, heard_of};
ghost use Rattle.feed_follower.specs.Hearing.{IsHeard};

use arbitration::{DeliverFault, Line};
use feed_ends::Fault;
use subscriber::{DeliveryFault, Subscriber};

/// What became of what came by a line: taken, or dropped for a reason.
#[derive(Clone, Copy, Debug, PartialEq, Eq)]
pub(crate) enum Heard {
    /// A packet of the session, which was taken.
    Taken,
    /// Bytes that are no packet.
    NoPacket,
    /// A packet of another session.
    Foreign,
    /// A packet with another entry than the one known under this number, the least such number.
    Conflict(u32),
    /// A packet that does not fit what is known of the day's end.
    PastEnd,
}

/// Returns what became of a refused delivery. For a subscriber that has failed it returns `Disagrees`.
fn heard_of(fault: &DeliveryFault) -> Result<Heard, Fault>
    ensures heard { result ≡ heard_of fault.now }
    ensures number { IfOk result IsHeard }
{
    match fault {
        DeliveryFault::NoPacket(_) => Ok(Heard::NoPacket),
        DeliveryFault::Refused(DeliverFault::Foreign) => Ok(Heard::Foreign),
        DeliveryFault::Refused(DeliverFault::Conflict(number)) => {
            Ok(Heard::Conflict(number.value()))
        }
        DeliveryFault::Refused(DeliverFault::PastEnd) => Ok(Heard::PastEnd),
        DeliveryFault::Failed => Err(Fault::Disagrees),
    }
}

/// Delivers what came by a line to the subscriber, and returns what became of it. Bytes that are no packet of the day are
/// dropped.
#[tactic(auto, using(crate::proofs::Heards::came_of))]
pub(crate) fn deliver_to(
    subscriber: &mut Subscriber,
    line: Line,
    bytes: &[u8],
) -> Result<Heard, Fault>
    ensures tape { subscriber.new.tape ≡ subscriber.old.tape }
    ensures session { subscriber.new.window.session ≡ subscriber.old.window.session }
    ensures came { IfOk result (λ heard. Comes line bytes.now heard subscriber.old subscriber.new) }
    ensures failed { subscriber.old.failed ≡ true → result ≡ Err Disagrees }
    ensures running { subscriber.old.failed ≡ false → IsOk result }
    ensures number { IfOk result IsHeard }
{
    match subscriber.deliver(line, bytes) {
        Ok(_) => Ok(Heard::Taken),
        Err(fault) => heard_of(&fault),
    }
}
