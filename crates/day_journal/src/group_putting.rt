//! Writes a group of entries as bytes: its packets, each after its length, the mark, the number of entries and the chained
//! digest.
ghost use Rattle.std.specs.Prelude.{◌≡◌, ◌+◌, ◌*◌, ◌/◌, ◌≤◌, ◌<◌, [], ◌++◌, IfOk, OnOk, length};
ghost use Rattle.tape_frames.specs.Limits.{LONGEST_PACKET};
ghost use Rattle.tape_frames.specs.Packets.{version_of};
ghost use Rattle.tape_frames.specs.Spelling.{IsPacket, packet_text};
ghost use Rattle.tape_frames.specs.Versions.{longest_packet};
ghost use Rattle.tape_frames.specs.declared.version.Version.TheVariants.{Two};
ghost use Rattle.tape_types.specs.Ranges.{TAPE_MOST};
ghost use Rattle.sha2.specs.Sha256.{sha256};
ghost use Rattle.day_journal.specs.Groups.{ArePackets, IsGroup, frame_text, group_body, group_digest, group_text, packet_count, packets_text, pending};

use crate::limits::DIGEST_LENGTH;
use reports::put;
use sha2::{Digest, Sha256};
use std::alloc::AllocError;
use tape_frames::{ENTRIES_MOST, Packet, Source, Version, cut, write_packet};
use tape_types::TAPE_MOST;

/// Replaces `text` with the group of the source's entries after the `held` ones, of which there must be some, chained to the
/// digest before it, and returns the group's digest. If memory runs out, `text` may hold a part of it.
pub(crate) fn put_group<S: Source>(
    session: u64,
    before: &[u8; DIGEST_LENGTH],
    held: u32,
    source: &S,
    text: &mut Vec<u8>,
) -> Result<[u8; DIGEST_LENGTH], AllocError>
    requires { 1 ≤ length (pending held (S.list source.now)) }
    ensures text { OnOk result (text.new.items ≡ group_text session before.now (pending held (S.list source.now))) }
    ensures digest { IfOk result (λ d. d ≡ group_digest session before.now (pending held (S.list source.now))) }
    ensures group { OnOk result (IsGroup session held (pending held (S.list source.now))) }
{
    put_body(session, held, source, text)?;
    let digest = chained(before, text.as_slice());
    text.extend_from_slice(&digest)?;
    Ok(digest)
}

/// The digest of a group's bytes, chained to the one before it.
pub(crate) fn chained(before: &[u8; DIGEST_LENGTH], body: &[u8]) -> [u8; DIGEST_LENGTH]
    ensures { result ≡ sha256 (before.now ++ body.now) }
{
    let mut hasher = Sha256::new();
    hasher.update(before.as_slice());
    hasher.update(body);
    hasher.finalize()
}

/// Replaces `text` with the group's bytes before the digest.
fn put_body<S: Source>(
    session: u64,
    held: u32,
    source: &S,
    text: &mut Vec<u8>,
) -> Result<(), AllocError>
    requires { 1 ≤ length (pending held (S.list source.now)) }
    ensures text { OnOk result (text.new.items ≡ group_body session (pending held (S.list source.now))) }
    ensures group { OnOk result (IsGroup session held (pending held (S.list source.now))) }
{
    text.clear();
    let count = source.published().min(TAPE_MOST) - held;
    put_packets(session, held, count, source, text)?;
    text.extend_from_slice(&[0; 2])?;
    text.extend_from_slice(&count.to_be_bytes())?;
    Ok(())
}

/// Appends the packets of the source's `count` entries after the `held` ones, each after its length.
fn put_packets<S: Source>(
    session: u64,
    held: u32,
    count: u32,
    source: &S,
    text: &mut Vec<u8>,
) -> Result<(), AllocError>
    requires some { 1 ≤ count }
    requires count { count ≡ length (pending held (S.list source.now)) }
    ensures text { OnOk result (text.new.items ≡ text.old.items
        ++ packets_text (packet_count (pending held (S.list source.now))) session (pending held (S.list source.now))) }
    ensures packets { OnOk result (ArePackets (packet_count (pending held (S.list source.now))) session (pending held (S.list source.now))) }
{
    let packets = (count + 15) / ENTRIES_MOST as u32;
    for place in 0..packets {
        let first = held + ENTRIES_MOST as u32 * place + 1;
        put_frame(&cut(Version::Two, session, first, source), text)?;
    }
    Ok(())
}

/// Appends a packet after its length.
fn put_frame(packet: &Packet, text: &mut Vec<u8>) -> Result<(), AllocError>
    ensures text { OnOk result (text.new.items ≡ text.old.items ++ frame_text (packet_text packet.now)) }
    ensures packet { OnOk result (IsPacket packet.now) }
{
    let at = text.len();
    text.extend_from_slice(&[0; 2])?;
    write_packet(packet, text)?;
    let len = text.len() - at - 2;
    put(&mut text[at..at + 2], 0, &(len as u16).to_be_bytes());
    Ok(())
}
