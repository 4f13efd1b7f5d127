//! Requests over a tape that is sent.

use super::feed::{Feed, SESSION};
use retransmit::{ServeEnd, serve};
use std::alloc::Global;
use std::io::{Read, Write};
use tape_frames::{Request, SliceSource, Span, Version, write_request};

/// How many bytes a request has.
pub(super) const REQUEST: usize = 14;

/// How many entries the tape has that requests are served over.
pub(super) const ENTRIES: u32 = 12;

/// A request of the session.
pub(super) fn request(from: u32, count: u16) -> Option<Request> {
    Some(Request {
        session: SESSION,
        from,
        count: Span::try_new(count)?,
    })
}

/// The bytes of a request for ten entries, of one that is refused, and of one for three.
pub(super) fn requests() -> Option<[u8; 3 * REQUEST]> {
    let mut bytes = [0; 3 * REQUEST];
    bytes[..14].copy_from_slice(&write_request(&request(3, 10)?));
    bytes[14..28].copy_from_slice(&write_request(&request(61, 1)?));
    bytes[28..].copy_from_slice(&write_request(&request(1, 3)?));
    Some(bytes)
}

/// How serving requests over the tape ends.
pub(super) fn served<R: Read, W: Write>(
    alloc: Global,
    version: Version,
    tape: &Feed,
    reader: &mut R,
    writer: &mut W,
) -> ServeEnd {
    let mut source = SliceSource::of(tape);
    serve(alloc, &mut source, SESSION, version, reader, writer)
}
