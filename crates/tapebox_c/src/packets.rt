//! Reads a packet for another language.
ghost use Rattle.std.specs.Prelude.{◌≡◌};
ghost use Rattle.tape_frames.specs.Reading.{packet_of};
ghost use Rattle.tapebox_c.specs.Packets.{GivesEntry, ReadsPacket, packet_fields};

use crate::fault::CallFault;
use crate::rows::{EntryRow, PacketFieldsRow, entry_row};
use tape_frames::{Packet, decode_packet};

/// Reads the packet that the bytes are, except its entries.
#[unsafe(no_mangle)]
pub extern "C" fn tapebox_read_packet(packet: &[u8], row: &mut PacketFieldsRow) -> u32
    ensures { ReadsPacket (packet_of packet.now) result row.old row.new }
{
    match decode_packet(packet) {
        Ok(packet) => {
            *row = packet_fields(&packet);
            0
        }
        Err(fault) => CallFault::NoPacket(fault).code(),
    }
}

/// Reads the entry at a place, from 0, of the packet that the bytes are.
#[unsafe(no_mangle)]
pub extern "C" fn tapebox_packet_entry(packet: &[u8], place: u32, row: &mut EntryRow) -> u32
    ensures { GivesEntry (packet_of packet.now) place result row.old row.new }
{
    match decode_packet(packet) {
        Ok(packet) => {
            let Some(entry) = packet.entries().get(place as usize) else {
                return CallFault::NoEntry.code();
            };
            *row = entry_row(entry);
            0
        }
        Err(fault) => CallFault::NoPacket(fault).code(),
    }
}

/// What a packet holds besides its entries.
fn packet_fields(packet: &Packet) -> PacketFieldsRow
    ensures { result ≡ packet_fields packet.now }
{
    match packet {
        Packet::Data { session, entries } => {
            let listed = entries.entries();
            PacketFieldsRow {
                session: *session,
                number: listed[0].number.value(),
                count: listed.len() as u32,
                version: entries.version().byte(),
                kind: b'D',
            }
        }
        Packet::Beat { session, last } => PacketFieldsRow {
            session: *session,
            number: last.value(),
            count: 0,
            version: last.version().byte(),
            kind: b'H',
        },
        Packet::End { session, count } => PacketFieldsRow {
            session: *session,
            number: count.value(),
            count: 0,
            version: count.version().byte(),
            kind: b'E',
        },
    }
}
