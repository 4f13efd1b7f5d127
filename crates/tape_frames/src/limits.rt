//! The limits of packets and requests: numbers of entries, greatest numbers, and lengths in bytes.

use reports::LONGEST_MESSAGE;

/// How many entries a packet has at most.
pub const ENTRIES_MOST: usize = 16;

/// How many entries a packet of version 1 has at most.
pub const ENTRIES_MOST_ONE: usize = 8;

/// The greatest number in a packet of version 1: of an entry, a mark's place, a beat or an end.
pub const NUMBER_MOST_ONE: u32 = 1_048_576;

/// How many entries a request asks for at most.
pub const LONGEST_SPAN: u16 = 64;

/// How many bytes come before a packet's entries: version 1, kind 1, session 8, number 4, count 1.
pub const HEADER_LENGTH: usize = 15;

/// How many bytes a mark has, or the zeros in its place: price 8, place 4, participant 1.
pub const MARK_LENGTH: usize = 13;

/// The presence byte of a summary that has all four marks, the greatest one.
pub const ALL_MARKS: u8 = 0x0f;

/// How many bytes a summary has: presence 1, four marks, volume 8, trades 4.
pub const SUMMARY_LENGTH: usize = 1 + 4 * MARK_LENGTH + 12;

/// How many bytes an entry has at most: the number (4), message and summary of a correction.
pub const LONGEST_ENTRY: usize = 4 + LONGEST_MESSAGE + SUMMARY_LENGTH;

/// How many bytes a packet has at most.
pub const LONGEST_PACKET: usize = HEADER_LENGTH + ENTRIES_MOST * LONGEST_ENTRY;

/// How many bytes a request has: session 8, from 4, count 2.
pub const REQUEST_LENGTH: usize = 14;
