//! Reads a packet's header alone, without the entries that follow it.
ghost use Rattle.std.specs.Prelude.{◌≡◌, Some};
ghost use Rattle.reports.specs.Fields.{Reads};
ghost use Rattle.tape_frames.specs.declared.packet.Packet.{Packet};
ghost use Rattle.tape_frames.specs.Headers.{header_at, header_number_of, last_entry_of};
ghost use Rattle.tape_frames.specs.Spelling.{Spells};

use crate::PacketFault;
use crate::kinds::DATA;
use reports::Unread;

/// What a header says about the entries that follow it.
#[derive(Clone, Copy)]
struct PacketHeader {
    /// The kind of the packet.
    kind: u8,
    /// The session that it is sent under.
    session: u64,
    /// The number of its first entry, or the number that a beat or an end states.
    number: u32,
    /// How many entries it has.
    count: u8,
}

/// The header at the front, whatever its version.
#[tactic(auto, unfolding(crate::specs::Headers::header_at))]
fn read_header(unread: &mut Unread<'_>) -> Result<PacketHeader, PacketFault>
    ensures { Reads result unread.new.rest.now (header_at unread.old.rest.now) }
{
    let _version = unread.u8(PacketFault::Short)?;
    let kind = unread.u8(PacketFault::Short)?;
    let session = unread.u64(PacketFault::Short)?;
    let number = unread.u32(PacketFault::Short)?;
    let count = unread.u8(PacketFault::Short)?;
    Ok(PacketHeader {
        kind,
        session,
        number,
        count,
    })
}

/// The number in the header of the packet with these bytes: that of its first entry, or the one that a beat or an end states.
/// `None` if there are fewer bytes than a header has. Nothing else is checked, so bytes that are not a packet have a number
/// too.
pub fn header_number(bytes: &[u8]) -> Option<u32>
    ensures number { (packet : Packet) → Spells bytes.now packet → result ≡ Some (header_number_of packet) }
{
    let mut unread = Unread::of(bytes);
    match read_header(&mut unread) {
        Ok(header) => Some(header.number),
        Err(_) => None,
    }
}

/// The number of the last entry that the packet with these bytes brings, by its header alone: `None` if it brings none or
/// belongs to another session.
pub fn last_entry(session: u64, bytes: &[u8]) -> Option<u64>
    ensures last { (packet : Packet) → Spells bytes.now packet → result ≡ last_entry_of session packet }
{
    let mut unread = Unread::of(bytes);
    let Ok(header) = read_header(&mut unread) else {
        return None;
    };
    if header.kind != DATA {
        return None;
    }
    if header.session != session {
        return None;
    }
    Some((u64::from(header.number) + u64::from(header.count)).saturating_sub(1))
}
