//! Appends groups to a journal, and keeps the number of its entries, the last digest and whether a write failed.
ghost use Rattle.std.specs.Prelude.{◌≡◌, ◌≤◌, ◌↔◌, ◌≢◌, Err, IsOk, IsTrue, OnOk, false, true, length};
ghost use Rattle.std.specs.Io.KnownBytes.{Appends, Keeps};
ghost use Rattle.whole_io.specs.Writing.{WritesPrefix};
ghost use Rattle.tape_types.specs.Ranges.{TAPE_MOST};
ghost use Rattle.day_journal.specs.Groups.{IsGroup, pending};
ghost use Rattle.day_journal.specs.Writers.{WriterState, next_text, with_group};
ghost use Rattle.day_journal.specs.declared.append_fault.AppendFault.TheVariants.{Broken, OutOfMemory, WriteFault};

use crate::AppendFault;
use crate::group_putting::put_group;
use crate::limits::DIGEST_LENGTH;
use std::alloc::Global;
use std::io::Write;
use std::marker::Model;
use tape_frames::Source;
use tape_types::TAPE_MOST;
use whole_io::write_text;

/// Appends groups to a journal. After a failed write it appends nothing more, since the journal then ends within a group.
#[derive(Drop)]
pub struct GroupWriter {
    session: u64,
    held: u32,
    digest: [u8; DIGEST_LENGTH],
    broken: bool,
    text: Vec<u8>,
}

impl Model for GroupWriter {
    ghost use Rattle.std.specs.Prelude.{◌≤◌};
    ghost use Rattle.tape_types.specs.Ranges.{TAPE_MOST};
    ghost use Rattle.day_journal.specs.Writers.{WriterState};

    ghost Value = { WriterState };

    ghost view = { λ w. record { session = w.session; held = w.held; digest = w.digest; broken = w.broken } };

    ghost invariant = { λ w. w.held ≤ TAPE_MOST };
}

impl GroupWriter {
    /// Returns a writer after a journal's header, or after groups that were read of it, from this many entries and this digest
    /// on.
    pub fn new(alloc: Global, session: u64, held: u32, digest: [u8; DIGEST_LENGTH]) -> Self
        requires { held ≤ TAPE_MOST }
        ensures state { result ≡ record { session = session; held = held; digest = digest; broken = false } }
    {
        GroupWriter {
            session,
            held,
            digest,
            broken: false,
            text: Vec::new(alloc),
        }
    }

    /// Appends one group: all entries of the source that the journal does not have, of which there must be some. It is written
    /// in one write if the writer takes it whole, and is not flushed. Its bytes are allocated in a buffer that the next group
    /// uses again.
    pub fn append_group<S: Source, W: Write>(
        &mut self,
        source: &S,
        writer: &mut W,
    ) -> Result<(), AppendFault>
        requires some { 1 ≤ length (pending self.old.held (S.list source.now)) }
        // Once it is appended, the writer holds what it held and the group.
        ensures written { OnOk result (Appends (W.contents writer.old) (W.contents writer.new) (next_text self.old (pending self.old.held (S.list source.now)))) }
        ensures group { OnOk result (IsGroup self.old.session self.old.held (pending self.old.held (S.list source.now))) }
        ensures state { OnOk result (self.new ≡ with_group self.old (pending self.old.held (S.list source.now))) }
        // A write that failed leaves a front of the group, and `broken` is true from then on.
        ensures part { result ≡ Err WriteFault → WritesPrefix (next_text self.old (pending self.old.held (S.list source.now)))
            (W.contents writer.old) (W.contents writer.new) }
        ensures broken { result ≡ Err WriteFault → self.new ≡ record self.old { broken = true } }
        // No other fault writes anything.
        ensures keeps { result ≡ Err OutOfMemory → (self.new ≡ self.old) × Keeps (W.contents writer.old) (W.contents writer.new) }
        ensures refuses { (result ≡ Err Broken) ↔ (self.old.broken ≡ true) }
        ensures refused { result ≡ Err Broken → (self.new ≡ self.old) × Keeps (W.contents writer.old) (W.contents writer.new) }
    {
        if self.broken {
            return Err(AppendFault::Broken);
        }
        let Ok(digest) = put_group(
            self.session,
            &self.digest,
            self.held,
            source,
            &mut self.text,
        ) else {
            return Err(AppendFault::OutOfMemory);
        };
        let Ok(()) = write_text(writer, self.text.as_slice()) else {
            self.broken = true;
            return Err(AppendFault::WriteFault);
        };
        self.held = source.published().min(TAPE_MOST);
        self.digest = digest;
        Ok(())
    }

    /// How many entries of the source the journal does not have.
    pub fn pending<S: Source>(&self, source: &S) -> u32
        ensures value { result ≡ length (pending self.now.held (S.list source.now)) }
    {
        let published = source.published().min(TAPE_MOST);
        published.saturating_sub(self.held())
    }

    /// How many entries the journal has.
    pub fn held(&self) -> u32
        ensures held { result ≡ self.now.held }
        ensures within { result ≤ TAPE_MOST }
    {
        self.held
    }

    /// Whether a write failed, so that nothing more is appended.
    pub fn broken(&self) -> bool
        ensures broken { result ≡ self.now.broken }
    {
        self.broken
    }
}
