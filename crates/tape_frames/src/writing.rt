//! Writes a packet as its spelling: into a fixed row of bytes first, then into the caller's text.
ghost use Rattle.std.specs.Prelude.{◌≡◌, ◌+◌, ◌*◌, ◌≤◌, ◌++◌, All, length, OnOk, OnErr, flat_map};
ghost use Rattle.reports.specs.ByteRows.{Puts};
ghost use Rattle.tape_frames.specs.Limits.{ENTRIES_MOST, HEADER_LENGTH, MARK_LENGTH, SUMMARY_LENGTH, LONGEST_ENTRY, LONGEST_PACKET, ALL_MARKS};
ghost use Rattle.scratch_fold.specs.Places.{HasPlacesUpTo, IsPlacedUpTo};
ghost use Rattle.tape_frames.specs.PacketEntries.{Carries, FitsIn};
ghost use Rattle.tape_frames.specs.Packets.{version_of};
ghost use Rattle.tape_frames.specs.Versions.{longest_packet, number_most};
ghost use Rattle.tape_frames.specs.Spelling.{IsEntry, IsFigure, IsMark, IsPacket, IsSummary, entry_text};
ghost use Rattle.tape_frames.specs.Spelling.{figure_text, header_text, mark_text, packet_text, presence, summary_text};

use crate::kinds::{BEAT, DATA, END};
use crate::limits::{LONGEST_PACKET, MARK_LENGTH};
use crate::{Packet, Version};
use reports::{LONGEST_MESSAGE, encode_into, put};
use scratch_fold::{Mark, Summary};
use std::alloc::AllocError;
use tape_core::Entry;

/// Appends the packet's spelling to the text. If memory runs out, the text is unchanged. The spelling is built in a row of
/// `LONGEST_PACKET` bytes, so the text grows only once.
pub fn write_packet(packet: &Packet, text: &mut Vec<u8>) -> Result<(), AllocError>
    ensures ok { OnOk result (text.new.items ≡ text.old.items ++ packet_text packet.now) }
    // With `ok`: the bytes appended spell the packet.
    ensures valid { IsPacket packet.now }
    ensures short { length (packet_text packet.now) ≤ longest_packet (version_of packet.now) }
    ensures err { OnErr result (text.new.items ≡ text.old.items) }
{
    let mut row = [0; LONGEST_PACKET];
    let end = put_packet(&mut row, packet);
    text.extend_from_slice(&row[..end])
}

// Each of these functions puts a text after the first `at` bytes of the row and returns where the text ends.

/// The whole packet, at the front of the row.
fn put_packet(row: &mut [u8], packet: &Packet) -> usize
    requires { LONGEST_PACKET ≤ length row.old }
    ensures puts { Puts 0 (packet_text packet.now) row.old row.new result }
    ensures valid { IsPacket packet.now }
{
    match packet {
        Packet::Data { session, entries } => {
            let version = entries.version();
            let entries = entries.entries();
            let first = entries[0].number.value();
            let at = put_header(row, version, DATA, *session, first, entries.len() as u8);
            put_entries(row, at, version, entries)
        }
        Packet::Beat { session, last } => {
            put_header(row, last.version(), BEAT, *session, last.value(), 0)
        }
        Packet::End { session, count } => {
            put_header(row, count.version(), END, *session, count.value(), 0)
        }
    }
}

/// Version, kind, session, number and count, at the front of the row.
fn put_header(
    row: &mut [u8],
    version: Version,
    kind: u8,
    session: u64,
    number: u32,
    count: u8,
) -> usize
    requires { HEADER_LENGTH ≤ length row.old }
    ensures puts { Puts 0 (header_text version kind session number count) row.old row.new result }
{
    let at = put(row, 0, &[version.byte(), kind]);
    let at = put(row, at, &session.to_be_bytes());
    let at = put(row, at, &number.to_be_bytes());
    put(row, at, &[count])
}

/// The entries, one after the other. A packet of the version can have each of them.
fn put_entries(row: &mut [u8], at: usize, version: Version, entries: &[Entry]) -> usize
    requires few { length entries.now ≤ ENTRIES_MOST }
    requires carry { All Carries entries.now }
    requires fit { All (FitsIn version) entries.now }
    requires room { at + ENTRIES_MOST * LONGEST_ENTRY ≤ length row.old }
    ensures puts { Puts at (flat_map entry_text entries.now) row.old row.new result }
    ensures valid { All (IsEntry version) entries.now }
{
    let mut at = at;
    for entry in entries {
        at = put_entry(row, at, version, entry);
    }
    at
}

/// An entry: its number, its message, and what it carries.
fn put_entry(row: &mut [u8], at: usize, version: Version, entry: &Entry) -> usize
    requires room { at + LONGEST_ENTRY ≤ length row.old }
    requires carries { Carries entry.now }
    requires fits { FitsIn version entry.now }
    ensures puts { Puts at (entry_text entry.now) row.old row.new result }
    ensures within { result ≤ at + LONGEST_ENTRY }
    ensures valid { IsEntry version entry.now }
{
    let at = put(row, at, &entry.number.value().to_be_bytes());
    let mut text = [0; LONGEST_MESSAGE];
    let len = encode_into(&entry.message, &mut text);
    let at = put(row, at, &text[..len]);
    match &entry.after {
        None => at,
        Some(summary) => put_summary(row, at, version, summary),
    }
}

/// A summary: which marks are present, the marks, and the two sums.
fn put_summary(row: &mut [u8], at: usize, version: Version, summary: &Summary) -> usize
    requires room { at + SUMMARY_LENGTH ≤ length row.old }
    requires places { HasPlacesUpTo (number_most version) summary.now }
    ensures puts { Puts at (summary_text summary.now) row.old row.new result }
    ensures len { result ≡ at + SUMMARY_LENGTH }
    ensures valid { IsSummary version summary.now }
{
    let at = put(row, at, &[presence(summary)]);
    let at = put_figure(row, at, version, &summary.opening);
    let at = put_figure(row, at, version, &summary.high);
    let at = put_figure(row, at, version, &summary.low);
    let at = put_figure(row, at, version, &summary.last);
    let at = put(row, at, &summary.volume.to_be_bytes());
    put(row, at, &summary.trades.to_be_bytes())
}

/// Which marks are present: a bit for each, from the lowest.
fn presence(summary: &Summary) -> u8
    ensures value { result ≡ presence summary.now }
    ensures low { result ≤ ALL_MARKS }
{
    u8::from(summary.opening.is_some())
        + 2 * u8::from(summary.high.is_some())
        + 4 * u8::from(summary.low.is_some())
        + 8 * u8::from(summary.last.is_some())
}

/// A mark if it is present, otherwise zeros.
fn put_figure(row: &mut [u8], at: usize, version: Version, figure: &Option<Mark>) -> usize
    requires room { at + MARK_LENGTH ≤ length row.old }
    requires place { IsPlacedUpTo (number_most version) figure.now }
    ensures puts { Puts at (figure_text figure.now) row.old row.new result }
    ensures len { result ≡ at + MARK_LENGTH }
    ensures valid { IsFigure version figure.now }
{
    match figure {
        None => put(row, at, &[0; MARK_LENGTH]),
        Some(mark) => put_mark(row, at, version, mark),
    }
}

/// The mark of a report.
fn put_mark(row: &mut [u8], at: usize, version: Version, mark: &Mark) -> usize
    requires room { at + MARK_LENGTH ≤ length row.old }
    requires place { mark.now.place ≤ number_most version }
    ensures puts { Puts at (mark_text mark.now) row.old row.new result }
    ensures len { result ≡ at + MARK_LENGTH }
    ensures valid { IsMark version mark.now }
{
    let at = put(row, at, &mark.price.value().to_be_bytes());
    let at = put(row, at, &mark.place.value().to_be_bytes());
    put(row, at, &[mark.who.value()])
}
