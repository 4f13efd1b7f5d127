//! The calls of a tape's sender: packets, and answers to requests.
ghost use Rattle.std.specs.Prelude.{◌≡◌, IfSome, Ok};
ghost use Rattle.tape_frames.specs.Versions.{version_of_byte};
ghost use Rattle.tape_frames.specs.declared.packet.Packet.TheVariants.{Beat, End};
ghost use Rattle.tapebox_c.specs.Calls.{held_tape};
ghost use Rattle.tapebox_c.specs.Sending.{IsPacketRow, PacketIn, PacketTold, ServesIn, TellsText, answer_due, count_due, cut_due, told_due};

use crate::fault::CallFault;
use crate::handle::Handle;
use crate::rows::PacketRow;
use reports::put;
use std::alloc::Global;
use tape_frames::{
    EntryCount, LONGEST_PACKET, Packet, PacketFault, REQUEST_LENGTH, Version, write_packet,
};

/// The version of a number.
fn version_numbered(number: u32) -> Option<Version>
    ensures { result ≡ version_of_byte number }
{
    match number {
        1 => Some(Version::One),
        2 => Some(Version::Two),
        _ => None,
    }
}

/// Writes the packet of the entries from one number on: as many as the version takes, but none above another number.
#[unsafe(no_mangle)]
pub extern "C" fn tapebox_cut(
    alloc: Global,
    handle: &mut Handle,
    version: u32,
    session: u64,
    from: u32,
    to: u32,
    row: &mut PacketRow,
) -> u32
    ensures told { PacketIn (cut_due (version_of_byte version) (held_tape handle.old.inside.held) session from to) result row.old row.new }
    ensures kept { handle.new.inside.held ≡ handle.old.inside.held }
{
    let Some(version) = version_numbered(version) else {
        return CallFault::NoPacket(PacketFault::BadVersion).code();
    };
    let Some(held) = handle.take(alloc) else {
        return CallFault::NoTape.code();
    };
    let found = held.cut(version, session, from, to);
    handle.put(held);
    match found {
        Ok(packet) => give_packet(alloc, &packet, row),
        Err(fault) => fault.code(),
    }
}

/// Writes a beat, which states how many entries the tape has so far.
#[unsafe(no_mangle)]
pub extern "C" fn tapebox_beat(
    alloc: Global,
    version: u32,
    session: u64,
    last: u32,
    row: &mut PacketRow,
) -> u32
    ensures { PacketIn (told_due (Beat session) (count_due (version_of_byte version) last)) result row.old row.new }
{
    match entry_count(version, last) {
        Ok(last) => give_packet(alloc, &Packet::Beat { session, last }, row),
        Err(fault) => CallFault::NoPacket(fault).code(),
    }
}

/// Writes an end, which states how many entries the closed tape has.
#[unsafe(no_mangle)]
pub extern "C" fn tapebox_end(
    alloc: Global,
    version: u32,
    session: u64,
    count: u32,
    row: &mut PacketRow,
) -> u32
    ensures { PacketIn (told_due (End session) (count_due (version_of_byte version) count)) result row.old row.new }
{
    match entry_count(version, count) {
        Ok(count) => give_packet(alloc, &Packet::End { session, count }, row),
        Err(fault) => CallFault::NoPacket(fault).code(),
    }
}

/// Writes the answer to the request that the bytes are, from what is on the tape, at the front of the row.
#[unsafe(no_mangle)]
pub extern "C" fn tapebox_serve(
    alloc: Global,
    handle: &mut Handle,
    version: u32,
    session: u64,
    request: &[u8],
    row: &mut [u8],
    len: &mut usize,
) -> u32
    ensures told { ServesIn (answer_due (version_of_byte version) (held_tape handle.old.inside.held) session request.now) result row.old row.new len.old len.new }
    ensures kept { handle.new.inside.held ≡ handle.old.inside.held }
{
    let Ok(request) = <[u8; REQUEST_LENGTH]>::try_from(request) else {
        return CallFault::NoRequest.code();
    };
    let Some(version) = version_numbered(version) else {
        return CallFault::NoPacket(PacketFault::BadVersion).code();
    };
    let Some(held) = handle.take(alloc) else {
        return CallFault::NoTape.code();
    };
    let told = held.answer(alloc, version, session, &request);
    handle.put(held);
    match told {
        Ok(text) => give_text(&text, row, len),
        Err(fault) => fault.code(),
    }
}

/// The number of entries that a packet of a version states.
fn entry_count(version: u32, number: u32) -> Result<EntryCount, PacketFault>
    ensures { result ≡ count_due (version_of_byte version) number }
{
    let Some(version) = version_numbered(version) else {
        return Err(PacketFault::BadVersion);
    };
    EntryCount::try_new(version, number).ok_or(PacketFault::BadCount)
}

/// Writes a packet's bytes, and returns 0, or the number of the fault if memory runs out.
fn give_packet(alloc: Global, packet: &Packet, row: &mut PacketRow) -> u32
    ensures { PacketTold packet.now result row.old row.new }
{
    let Some(spelled) = packet_row(alloc, packet) else {
        return CallFault::OutOfMemory.code();
    };
    *row = spelled;
    0
}

/// Returns a packet's bytes as a row, or `None` if memory runs out.
#[tactic(auto, using(crate::proofs::PacketRows::packet_fits))]
fn packet_row(alloc: Global, packet: &Packet) -> Option<PacketRow>
    ensures { IfSome result (IsPacketRow packet.now) }
{
    let mut text = Vec::new(alloc);
    let Ok(()) = write_packet(packet, &mut text) else {
        return None;
    };
    let mut bytes = [0; LONGEST_PACKET];
    let len = put(&mut bytes, 0, &text);
    Some(PacketRow {
        len: len as u32,
        bytes,
    })
}

/// Writes a text at the front of a row and its length, and returns 0, or the number of the fault if the row is shorter.
pub(crate) fn give_text(text: &[u8], row: &mut [u8], len: &mut usize) -> u32
    ensures { TellsText text.now result row.old row.new len.old len.new }
{
    if row.len() < text.len() {
        return CallFault::NoRoom.code();
    }
    row[..text.len()].copy_from_slice(text);
    *len = text.len();
    0
}
