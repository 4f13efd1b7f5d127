//! Keeps in the day's journal what is to be published, before it is published.
ghost use Rattle.std.specs.Prelude.{◌≡◌, ◌≢◌, ◌≤◌, ◌-◌, ◌++◌, [], Err, IfErr, OnErr, OnOk, drop, false, length, take, true};
ghost use Rattle.std.specs.Io.KnownBytes.{Appends, Keeps};
ghost use Rattle.day_journal.specs.Groups.{IsGroup};
ghost use Rattle.day_journal.specs.Writers.{next_text, with_group};
ghost use Rattle.feed_ends.specs.declared.fault.Fault.TheVariants.{Disagrees, Memory, Write as WriteFault};
ghost use Rattle.line_ledger.specs.Cells.{shown};
ghost use Rattle.live_feed.specs.Journals.{CanFollow, JournalState};
ghost use Rattle.live_feed.specs.declared.keeper.TheConstants.{GATHERED_AT_ONCE};
ghost use Rattle.tape_types.specs.Ranges.{TAPE_MOST};

use crate::JournalFile;
use crate::gathered::Gathered;
use crate::queue::Queue;
use crate::same_entries::ends_with;
use day_journal::{AppendFault, GroupWriter};
use feed_ends::Fault;
use line_ledger::{DayName, Published};
use std::alloc::Global;
use std::marker::Model;
use tape_core::{Entry, IndexedTape};
use tape_frames::{SliceSource, Source};

/// How many entries are gathered for a group at most.
const GATHERED_AT_ONCE: usize = 4_096;

/// A day's journal while the day runs. After a fault of a write, or of keeping what was written, nothing more is published.
#[derive(Drop)]
pub(crate) struct Keeper<J: JournalFile> {
    groups: GroupWriter,
    file: J,
    /// What the journal has and is not published yet.
    queue: Queue,
    /// Whether all that was written is kept.
    is_kept: bool,
    /// Whether a write, or keeping what was written, failed.
    failed: bool,
}

impl<J: JournalFile> Model for Keeper<J> {
    ghost use Rattle.std.specs.Prelude.{◌≡◌, true};
    ghost use Rattle.live_feed.specs.Journals.{JournalState};

    ghost Value = { JournalState };

    ghost view = { λ k. record { writer = k.groups; contents = J.contents k.file; kept = J.kept k.file; queue = k.queue; failed = k.failed } };

    ghost invariant = { λ k. k.is_kept ≡ true → J.kept k.file ≡ J.contents k.file };
}

/// Returns the entries after the first `held`, no more than are gathered at once.
fn next_of(entries: &[Entry], held: u32) -> &[Entry]
    ensures { result.now ≡ take GATHERED_AT_ONCE (drop held entries.now) }
{
    let from = entries.len().min(held as usize);
    let left = &entries[from..];
    &left[..left.len().min(GATHERED_AT_ONCE)]
}

impl<J: JournalFile> Keeper<J> {
    /// The keeper of a journal that is kept in this file and goes on after these groups. It allocates nothing.
    pub(crate) fn new(alloc: Global, groups: GroupWriter, file: J) -> Keeper<J>
        ensures { result ≡ record { writer = groups; contents = J.contents file; kept = J.kept file; queue = []; failed = false } }
    {
        Keeper {
            groups,
            file,
            queue: Queue::new(alloc),
            is_kept: false,
            failed: false,
        }
    }

    /// How many entries the journal has.
    pub(crate) fn held(&self) -> u32
        ensures held { result ≡ self.now.writer.held }
        ensures within { result ≤ TAPE_MOST }
    {
        self.groups.held()
    }

    /// Whether a write, or keeping what was written, failed.
    pub(crate) fn has_failed(&self) -> bool
        ensures { result ≡ self.now.failed }
    {
        self.failed
    }

    /// How many entries are to be published next.
    pub(crate) fn waiting(&self) -> usize
        ensures { result ≡ length self.now.queue }
    {
        self.queue.len()
    }

    /// Notes that a write, or keeping what was written, failed, and returns the day's fault for it.
    fn fail(&mut self) -> Fault
        ensures fault { result ≡ WriteFault }
        ensures failed { self.new ≡ record self.old { failed = true } }
    {
        self.failed = true;
        Fault::Write
    }

    /// Keeps all that the file has. If nothing was written since it was kept, it is not kept again.
    pub(crate) fn keep(&mut self) -> Result<(), Fault>
        ensures same { (self.new.writer ≡ self.old.writer) × (self.new.queue ≡ self.old.queue) }
        ensures contents { Keeps self.old.contents self.new.contents }
        ensures kept { OnOk result ((self.new.kept ≡ self.new.contents) × (self.new.failed ≡ self.old.failed)) }
        ensures fault { IfErr result (λ fault. (fault ≡ WriteFault) × (self.new.failed ≡ true)) }
    {
        if self.is_kept {
            return Ok(());
        }
        match self.file.keep() {
            Ok(()) => {
                self.is_kept = true;
                Ok(())
            }
            Err(_) => Err(self.fail()),
        }
    }

    /// Gathers the tape's next entries that the journal doesn't have. If memory runs out, none are gathered.
    pub(crate) fn gather(&mut self, tape: &IndexedTape) -> Result<(), Fault>
        ensures ok { OnOk result (self.new ≡ record self.old { queue = take GATHERED_AT_ONCE (drop self.old.writer.held tape.now.entries) }) }
        ensures follow { OnOk result (CanFollow self.new.writer.held self.new.queue) }
        ensures fault { IfErr result (λ fault. (fault ≡ Memory) × (self.new ≡ record self.old { queue = [] })) }
    {
        // For the proof alone: by the clauses of this call the entries are numbered from 1.
        let _ = SliceSource::of(tape).published();
        let next = next_of(tape.entries(), self.held());
        let Ok(()) = self.queue.fill(next) else {
            return Err(Fault::Memory);
        };
        Ok(())
    }

    /// Appends the entries that were gathered as one group, after those that are published, and keeps it.
    pub(crate) fn append<D: DayName>(&mut self, published: &Published<'_, D>) -> Result<(), Fault>
        requires some { 1 ≤ length self.old.queue }
        requires counted { self.old.writer.held ≡ length (shown published.now.tokens) }
        requires follow { CanFollow self.old.writer.held self.old.queue }
        ensures same { self.new.queue ≡ self.old.queue }
        ensures group { OnOk result (IsGroup self.old.writer.session self.old.writer.held self.old.queue) }
        ensures written { OnOk result (Appends self.old.contents self.new.contents (next_text self.old.writer self.old.queue)) }
        ensures writer { OnOk result (self.new.writer ≡ with_group self.old.writer self.old.queue) }
        ensures kept { OnOk result ((self.new.kept ≡ self.new.contents) × (self.new.failed ≡ self.old.failed)) }
        ensures fault { IfErr result (λ fault. fault ≢ Memory → (fault ≡ WriteFault) × (self.new.failed ≡ true)) }
        ensures memory { result ≡ Err Memory → self.new.failed ≡ self.old.failed }
    {
        // For the proof alone: by the clauses of this call what is published is numbered from 1.
        let _ = published.published();
        self.is_kept = false;
        let gathered = Gathered::new(published, self.queue.as_slice());
        match self.groups.append_group(&gathered, &mut self.file) {
            Ok(()) => self.keep(),
            Err(AppendFault::OutOfMemory) => Err(Fault::Memory),
            Err(AppendFault::WriteFault | AppendFault::Broken) => Err(self.fail()),
        }
    }

    /// Takes off the queue the entries that were published after the first `before`. `Disagrees` if they are not those at its
    /// front; then nothing changes.
    pub(crate) fn take_off<D: DayName>(
        &mut self,
        published: &Published<'_, D>,
        before: u32,
    ) -> Result<(), Fault>
        requires { before ≤ length (shown published.now.tokens) }
        ensures rest { OnOk result (self.new ≡ record self.old { queue = drop (length (shown published.now.tokens) - before) self.old.queue }) }
        ensures taken { OnOk result (drop before (shown published.now.tokens) ++ self.new.queue ≡ self.old.queue) }
        ensures err { OnErr result (self.new ≡ self.old) }
        ensures fault { IfErr result (λ fault. fault ≡ Disagrees) }
    {
        let count = (published.published() - before) as usize;
        if count > self.queue.len() {
            return Err(Fault::Disagrees);
        }
        if !ends_with(published, before, &self.queue.as_slice()[..count]) {
            return Err(Fault::Disagrees);
        }
        self.queue.take_off(count);
        Ok(())
    }
}
