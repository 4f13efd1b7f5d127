//! Reads a group from bytes, packet after packet, and checks that it follows the entries and the digest before it.
ghost use Rattle.std.specs.Prelude.{◌≡◌, ◌+◌, ◌≤◌, [], length, IfOk, OnOk};
ghost use Rattle.tape_frames.specs.Limits.{LONGEST_PACKET};
ghost use Rattle.tape_frames.specs.Reading.{packet_of};
ghost use Rattle.tape_types.specs.Ranges.{TAPE_MOST};
ghost use Rattle.day_journal.specs.GroupReading.{begins_next, begins_with_packet, frame_length, group_at, is_end, is_next, is_packet, next_row, packet_front, packets_at, tail_fault, told_at, told_count};
ghost use Rattle.day_journal.specs.Reads.{GivesGroup, GivesPackets, GivesRow};

use crate::GroupFault;
use crate::group_putting::chained;
use crate::limits::{DATA, DIGEST_LENGTH, PACKET_FRONT_LENGTH};
use reports::{Unread, put};
use tape_core::Entry;
use tape_frames::{ENTRIES_MOST, LONGEST_PACKET, Packet, PacketEntries, Version, decode_packet};

/// Reads the group at the front, which follows this many entries and this digest, and returns its own digest. Its entries
/// replace those of the vector.
#[tactic(auto, unfolding(crate::specs::GroupReading::group_at))]
pub(crate) fn read_group(
    unread: &mut Unread<'_>,
    session: u64,
    held: u32,
    before: &[u8; DIGEST_LENGTH],
    entries: &mut Vec<Entry>,
) -> Result<[u8; DIGEST_LENGTH], GroupFault>
    requires { held ≤ TAPE_MOST }
    ensures read { GivesGroup result entries.new.items unread.new.rest.now (group_at session held before.now unread.old.rest.now) }
    ensures within { OnOk result (held + length entries.new.items ≤ TAPE_MOST) }
{
    let bytes = unread.rest;
    entries.clear();
    read_packets(unread, session, held, entries)?;
    let count = unread.u32(GroupFault::Torn)?;
    let body = &bytes[..bytes.len().saturating_sub(unread.rest.len())];
    let digest: [u8; DIGEST_LENGTH] = unread.bytes(GroupFault::Torn)?;
    if !is_end(before, body, entries.len(), count, &digest) {
        return Err(GroupFault::Damaged);
    }
    Ok(digest)
}

/// Whether a group's end has this number of entries and the digest of these bytes.
fn is_end(
    before: &[u8; DIGEST_LENGTH],
    body: &[u8],
    entries: usize,
    count: u32,
    digest: &[u8; DIGEST_LENGTH],
) -> bool
    ensures { result ≡ is_end before.now body.now entries count digest.now }
{
    entries > 0 && count as usize == entries && *digest == chained(before, body)
}

/// Reads the packets up to the mark, and the mark.
fn read_packets(
    unread: &mut Unread<'_>,
    session: u64,
    held: u32,
    entries: &mut Vec<Entry>,
) -> Result<(), GroupFault>
    requires none { entries.old.items ≡ [] }
    requires within { held ≤ TAPE_MOST }
    ensures read { GivesPackets result entries.new.items unread.new.rest.now
        (packets_at (length unread.old.rest.now) session held [] unread.old.rest.now) }
    ensures within { OnOk result (held + length entries.new.items ≤ TAPE_MOST) }
{
    for place in 0..unread.rest.len() {
        let number = held + entries.len() as u32 + 1;
        let len = frame_length(session, number, unread.rest)?;
        if len == 0 {
            unread.rest = &unread.rest[2..];
            return Ok(());
        }
        // Only the last packet of a group may have fewer than the most entries.
        if entries.len() % ENTRIES_MOST != 0 {
            return Err(GroupFault::Damaged);
        }
        read_row(session, number, &unread.rest[2..2 + len], entries)?;
        unread.rest = &unread.rest[2 + len..];
    }
    Err(GroupFault::Damaged)
}

/// Returns how many bytes the packet has whose length is at the front, if all its bytes are there and it is the next one of
/// this session with this number; 0 at the mark.
#[tactic(auto, unfolding(crate::specs::GroupReading::frame_length))]
fn frame_length(session: u64, number: u32, bytes: &[u8]) -> Result<usize, GroupFault>
    ensures exact { result ≡ frame_length session number bytes.now }
    ensures there { IfOk result (λ len. 2 + len ≤ length bytes.now) }
    ensures short { IfOk result (λ len. len ≤ LONGEST_PACKET) }
{
    let mut unread = Unread::of(bytes);
    let len = unread.u16(GroupFault::Torn)? as usize;
    if len > LONGEST_PACKET {
        return Err(GroupFault::Damaged);
    }
    if unread.rest.len() < len {
        return Err(tail_fault(session, number, unread.rest));
    }
    Ok(len)
}

/// What is wrong if the bytes after a length end before a packet does. Only the front of the next packet is torn: a mark that
/// was changed has other bytes after it, and a length that was changed may have a whole packet there.
fn tail_fault(session: u64, number: u32, bytes: &[u8]) -> GroupFault
    ensures { result ≡ tail_fault session number bytes.now }
{
    if begins_with_packet(bytes) {
        GroupFault::Damaged
    } else if begins_next(session, number, bytes) {
        GroupFault::Torn
    } else {
        GroupFault::Damaged
    }
}

/// Whether the bytes begin as the packet of this session with this number does, as far as they go.
fn begins_next(session: u64, number: u32, bytes: &[u8]) -> bool
    ensures { result ≡ begins_next session number bytes.now }
{
    let front = packet_front(session, number);
    let len = bytes.len().min(front.len());
    bytes[..len] == front[..len]
}

/// The front of the packet of this session with the entries from this number on, in the second version.
fn packet_front(session: u64, number: u32) -> [u8; PACKET_FRONT_LENGTH]
    ensures { result ≡ packet_front session number }
{
    let mut front = [0; PACKET_FRONT_LENGTH];
    let at = put(&mut front, 0, &[Version::Two.byte(), DATA]);
    let at = put(&mut front, at, &session.to_be_bytes());
    put(&mut front, at, &number.to_be_bytes());
    front
}

/// Whether a front of the bytes, which are fewer than a packet may have, is a packet.
fn begins_with_packet(bytes: &[u8]) -> bool
    ensures { result ≡ begins_with_packet (length bytes.now + 1) bytes.now }
{
    let mut len = bytes.len() + 1;
    while len > 0 {
        len -= 1;
        if is_packet(&bytes[..len]) {
            return true;
        }
    }
    false
}

/// Whether the bytes are a packet.
fn is_packet(bytes: &[u8]) -> bool
    ensures { result ≡ is_packet (packet_of bytes.now) }
{
    match decode_packet(bytes) {
        Ok(_) => true,
        Err(_) => false,
    }
}

/// Appends the entries of the packet in the text, if it is the next one.
fn read_row(
    session: u64,
    number: u32,
    text: &[u8],
    entries: &mut Vec<Entry>,
) -> Result<(), GroupFault>
    ensures row { GivesRow result entries.old.items entries.new.items (next_row session number (packet_of text.now)) }
    ensures within { OnOk result (number + length entries.new.items ≤ TAPE_MOST + 1 + length entries.old.items) }
{
    let Ok(
        Packet::Data {
            session: own,
            entries: row,
        },
    ) = decode_packet(text)
    else {
        return Err(GroupFault::Damaged);
    };
    if !is_next(session, number, own, &row) {
        return Err(GroupFault::Damaged);
    }
    let extended = entries.extend_from_slice(row.entries());
    extended.map_err(|_| GroupFault::OutOfMemory)
}

/// Whether a packet of this session has the entries from this number on, in the second version.
fn is_next(session: u64, number: u32, own: u64, row: &PacketEntries) -> bool
    ensures { result ≡ is_next session number own row.now }
{
    let entries = row.entries();
    let first = entries[0].number.value();
    own == session && row.version() == Version::Two && first == number
}

/// How many entries the group at the front of the bytes has by its own end.
pub(crate) fn told_count(bytes: &[u8]) -> Option<u32>
    ensures { result ≡ told_count bytes.now }
{
    match told(bytes) {
        Ok(count) => Some(count),
        Err(_) => None,
    }
}

/// The number in the group's end, if the lengths of its packets lead there.
fn told(bytes: &[u8]) -> Result<u32, GroupFault>
    ensures { result ≡ told_at (length bytes.now) bytes.now }
{
    let mut rest = bytes;
    for place in 0..bytes.len() {
        let mut unread = Unread::of(rest);
        let len = unread.u16(GroupFault::Damaged)? as usize;
        if len == 0 {
            return unread.u32(GroupFault::Damaged);
        }
        rest = &unread.rest[len.min(unread.rest.len())..];
    }
    Err(GroupFault::Damaged)
}
