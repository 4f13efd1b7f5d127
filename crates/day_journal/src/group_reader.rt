//! Reads the groups of a journal one after the other, and keeps how many entries it has read and the last digest.
ghost use Rattle.std.specs.Prelude.{◌≡◌, ◌≤◌, IfOk, OnErr, drop, length};
ghost use Rattle.tape_types.specs.Ranges.{TAPE_MOST};
ghost use Rattle.day_journal.specs.Journals.{Reads, reader_at};

use crate::group_reading::{read_group, told_count};
use crate::limits::DIGEST_LENGTH;
use crate::{GroupFault, JournalEnd};
use reports::Unread;
use std::alloc::AllocError;
use std::marker::Model;
use tape_core::Entry;

/// What `next_group` found.
#[derive(Clone, Copy, Debug, PartialEq, Eq)]
pub enum Next {
    /// A group was read.
    Group,
    /// No other group follows, and the reader stays where it is.
    End(JournalEnd),
}

/// Reads the groups of a journal whose bytes are in memory.
#[derive(Drop)]
pub struct GroupReader<'a> {
    session: u64,
    held: u32,
    digest: [u8; DIGEST_LENGTH],
    total: usize,
    rest: &'a [u8],
}

impl<'a> Model for GroupReader<'a> {
    ghost use Rattle.std.specs.Prelude.{◌≤◌};
    ghost use Rattle.tape_types.specs.Ranges.{TAPE_MOST};
    ghost use Rattle.day_journal.specs.Journals.{ReaderState};

    ghost Value = { ReaderState };

    ghost view = { λ r. record { session = r.session; held = r.held; digest = r.digest; total = r.total; rest = r.rest.now } };

    ghost invariant = { λ r. r.held ≤ TAPE_MOST };
}

impl<'a> GroupReader<'a> {
    /// Returns a reader of the groups after the header of a journal, which has `from` bytes and this digest.
    pub fn new(session: u64, digest: [u8; DIGEST_LENGTH], from: usize, journal: &'a [u8]) -> Self
        requires { from ≤ length journal.now }
        ensures state { result ≡ reader_at session 0 digest from (drop from journal.now) }
    {
        GroupReader {
            session,
            held: 0,
            digest,
            total: journal.len(),
            rest: &journal[from..],
        }
    }

    /// Reads the next group: its entries replace those of the vector, and are not yet known to be those of a tape. At an end
    /// nothing is known of the vector's entries. If memory runs out, the reader stays where it is.
    pub fn next_group(&mut self, entries: &mut Vec<Entry>) -> Result<Next, AllocError>
        ensures ok { IfOk result (λ next. Reads next self.old entries.new.items self.new) }
        ensures err { OnErr result (self.new ≡ self.old) }
    {
        if self.rest.is_empty() {
            return Ok(Next::End(JournalEnd::Whole));
        }
        let mut unread = Unread::of(self.rest);
        match read_group(&mut unread, self.session, self.held, &self.digest, entries) {
            Ok(digest) => {
                self.held += entries.len() as u32;
                self.digest = digest;
                self.rest = unread.rest;
                Ok(Next::Group)
            }
            Err(GroupFault::Torn) => Ok(Next::End(JournalEnd::Torn {
                from: self.total.saturating_sub(self.rest.len()),
            })),
            Err(GroupFault::Damaged) => Ok(Next::End(JournalEnd::Damaged {
                first: self.held + 1,
                count: told_count(self.rest),
            })),
            Err(GroupFault::OutOfMemory) => Err(AllocError),
        }
    }

    /// How many entries the groups read so far have.
    pub fn held(&self) -> u32
        ensures held { result ≡ self.now.held }
        ensures within { result ≤ TAPE_MOST }
    {
        self.held
    }

    /// The digest of the last group that was read, or of the header if none was.
    pub fn digest(&self) -> [u8; DIGEST_LENGTH]
        ensures digest { result ≡ self.now.digest }
    {
        self.digest
    }
}
