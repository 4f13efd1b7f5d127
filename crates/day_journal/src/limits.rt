//! The lengths of a journal's parts, and the bytes they begin with.

/// How many bytes a digest has.
pub(crate) const DIGEST_LENGTH: usize = 32;

/// How many bytes follow the mark at a group's end: the number of entries, and the digest.
pub(crate) const GROUP_END_LENGTH: usize = 4 + DIGEST_LENGTH;

/// The first bytes of every journal.
pub(crate) const MAGIC: [u8; 8] = *b"tapejrnl";

/// The version of the format.
pub(crate) const VERSION: u8 = 1;

/// The kind of the packets in a journal, which is the byte after their version.
pub(crate) const DATA: u8 = b'D';

/// The length of a packet's front in bytes, by which the next packet is known: version 1, kind 1, session 8, number 4.
pub(crate) const PACKET_FRONT_LENGTH: usize = 14;
