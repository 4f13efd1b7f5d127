//! The bytes that stand for the kinds of packets, after the version.

/// The kind of a packet with entries.
pub(crate) const DATA: u8 = b'D';

/// The kind of a beat.
pub(crate) const BEAT: u8 = b'H';

/// The kind of an end.
pub(crate) const END: u8 = b'E';
