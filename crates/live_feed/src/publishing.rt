//! Publishes the tape's next entries, once they are kept in the day's journal, if there is one.
ghost use Rattle.std.specs.Prelude.{◌≡◌, ◌≢◌, ◌≤◌, ◌⊎◌, [], Err, IfErr, IfOk, OnOk, length, true, ℕ};
ghost use Rattle.line_ledger.specs.Cells.{shown};
ghost use Rattle.line_ledger.specs.Publishing.{GoesOn};
ghost use Rattle.line_ledger.specs.declared.publish_fault.PublishFault.TheVariants.{OutOfMemory, Unpublished};
ghost use Rattle.feed_ends.specs.declared.fault.Fault.TheVariants.{Memory, Disagrees, Write as WriteFault};
ghost use Rattle.live_feed.specs.Journals.{AllKept, Begins, GrowsAtMostOnce, HasAllKept, HasFailed, IsKept, Steps};

use crate::JournalFile;
use crate::keeper::Keeper;
use feed_ends::Fault;
use line_ledger::{DayName, PublishFault, Published, SharedTape};
use std::sync::Wait;
use tape_frames::Source;

/// How many entries are published at once, no more than a packet takes.
const PUBLISHED_AT_ONCE: u32 = 8;

/// Why nothing is published.
fn fault_of_publication(fault: PublishFault) -> Fault
    ensures memory { fault ≡ OutOfMemory → result ≡ Memory }
    ensures unpublished { (number : ℕ) → fault ≡ Unpublished number → result ≡ Disagrees }
    ensures unwritten { result ≢ WriteFault }
{
    match fault {
        PublishFault::Unpublished(_) => Fault::Disagrees,
        PublishFault::OutOfMemory => Fault::Memory,
    }
}

/// Publishes the tape's next entries, `most` at most, and looks at what is published then. Returns how many cells were set.
pub(crate) fn publish<D: DayName, R: Wait>(
    rt: &R,
    shared: &SharedTape<D>,
    published: &mut Published<'_, D>,
    most: u32,
) -> Result<u32, Fault>
    ensures cells { published.new.names ≡ published.old.names }
    ensures found { OnOk result (GoesOn published.old.tokens published.new.tokens) }
    ensures most { IfOk result (λ set. set ≤ most) }
    ensures unwritten { result ≢ Err WriteFault }
{
    let set = shared.publish(rt, most).map_err(fault_of_publication)?;
    published.refresh().map_err(|_| Fault::Memory)?;
    Ok(set)
}

/// Publishes entries that the journal keeps and that were not published yet, `most` at most. Returns how many cells were set.
fn publish_waiting<D: DayName, R: Wait, J: JournalFile>(
    rt: &R,
    shared: &SharedTape<D>,
    keeper: &Keeper<J>,
    published: &mut Published<'_, D>,
    most: u32,
) -> Result<u32, Fault>
    requires kept { IsKept keeper.now (shown published.old.tokens) }
    requires waiting { most ≤ length keeper.now.queue }
    ensures cells { published.new.names ≡ published.old.names }
    ensures found { OnOk result (GoesOn published.old.tokens published.new.tokens) }
    ensures most { IfOk result (λ set. set ≤ most) }
    ensures unwritten { result ≢ Err WriteFault }
{
    // For the proof alone: only clauses speak of it.
    let _ = keeper;
    publish(rt, shared, published, most)
}

/// Keeps the tape's next entries as a group of the journal, unless some that were kept before are waiting. The lines go on
/// meanwhile: the lock is held while the entries are gathered, and not while they are written.
fn keep_next<D: DayName, R: Wait, J: JournalFile>(
    rt: &R,
    shared: &SharedTape<D>,
    keeper: &mut Keeper<J>,
    published: &Published<'_, D>,
) -> Result<(), Fault>
    requires kept { IsKept keeper.old (shown published.now.tokens) }
    ensures journal { OnOk result (IsKept keeper.new (shown published.now.tokens)
        × GrowsAtMostOnce keeper.old (shown published.now.tokens) keeper.new (shown published.now.tokens)) }
    ensures failed { keeper.new.failed ≡ true → (keeper.old.failed ≡ true) ⊎ (result ≡ Err WriteFault) }
{
    if keeper.waiting() > 0 {
        return Ok(());
    }
    keeper.gather(shared.read(rt).tape())?;
    if keeper.waiting() == 0 {
        return Ok(());
    }
    keeper.append(published)
}

/// Publishes what the journal keeps, and first keeps the tape's next entries if nothing waits. Returns how many cells were set.
/// What is found published then is what was to be published next; `Disagrees` if it isn't.
fn publish_kept<D: DayName, R: Wait, J: JournalFile>(
    rt: &R,
    shared: &SharedTape<D>,
    keeper: &mut Keeper<J>,
    published: &mut Published<'_, D>,
) -> Result<u32, Fault>
    requires kept { IsKept keeper.old (shown published.old.tokens) }
    ensures cells { published.new.names ≡ published.old.names }
    ensures found { OnOk result (GoesOn published.old.tokens published.new.tokens) }
    ensures journal { OnOk result (IsKept keeper.new (shown published.new.tokens)
        × GrowsAtMostOnce keeper.old (shown published.old.tokens) keeper.new (shown published.new.tokens)) }
    ensures failed { keeper.new.failed ≡ true → (keeper.old.failed ≡ true) ⊎ (result ≡ Err WriteFault) }
    ensures kept_back { result ≡ Err WriteFault → published.new ≡ published.old }
{
    keep_next(rt, shared, keeper, published)?;
    let before = published.published();
    let most = keeper.waiting().min(PUBLISHED_AT_ONCE as usize) as u32;
    let set = publish_waiting(rt, shared, keeper, published, most)?;
    keeper.take_off(published, before)?;
    Ok(set)
}

/// Publishes the tape's next entries, `PUBLISHED_AT_ONCE` at most, after they are kept in the journal, if there is one. Returns
/// how many cells were set.
pub(crate) fn publish_next<D: DayName, R: Wait, J: JournalFile>(
    rt: &R,
    shared: &SharedTape<D>,
    keeper: &mut Option<Keeper<J>>,
    published: &mut Published<'_, D>,
) -> Result<u32, Fault>
    requires kept { AllKept keeper.old (shown published.old.tokens) }
    ensures cells { published.new.names ≡ published.old.names }
    ensures found { OnOk result (GoesOn published.old.tokens published.new.tokens) }
    // Nothing is published that is not kept first.
    ensures journal { OnOk result (AllKept keeper.new (shown published.new.tokens)
        × Steps keeper.old (shown published.old.tokens) keeper.new (shown published.new.tokens)) }
    ensures failed { HasFailed keeper.new → HasFailed keeper.old ⊎ (result ≡ Err WriteFault) }
    ensures kept_back { result ≡ Err WriteFault → published.new ≡ published.old }
{
    match keeper {
        Some(keeper) => publish_kept(rt, shared, keeper, published),
        None => publish(rt, shared, published, PUBLISHED_AT_ONCE),
    }
}

/// Keeps what the file of the day's journal has, if there is one: a process that ended may have written what no disk keeps.
pub(crate) fn keep_journal<J: JournalFile>(keeper: &mut Option<Keeper<J>>) -> Result<(), Fault>
    ensures kept { OnOk result (HasAllKept keeper.new) }
    ensures failed { OnOk result (HasFailed keeper.new → HasFailed keeper.old) }
    ensures fault { IfErr result (λ fault. fault ≡ WriteFault) }
{
    match keeper {
        Some(keeper) => keeper.keep(),
        None => Ok(()),
    }
}

/// Looks at what was restored of the journal, if there is one, and keeps what its file has. As many entries are published then
/// as the journal has, and it stays as it is.
pub(crate) fn begin<D: DayName, J: JournalFile>(
    keeper: &mut Option<Keeper<J>>,
    published: &mut Published<'_, D>,
) -> Result<(), Fault>
    requires none { published.old.tokens ≡ [] }
    ensures cells { published.new.names ≡ published.old.names }
    ensures journal { OnOk result (AllKept keeper.new (shown published.new.tokens) × Begins keeper.old keeper.new (shown published.new.tokens)) }
    ensures failed { HasFailed keeper.new → HasFailed keeper.old ⊎ (result ≡ Err WriteFault) }
{
    let Some(keeper) = keeper else {
        return Ok(());
    };
    keeper.keep()?;
    let Ok(()) = published.refresh() else {
        return Err(Fault::Memory);
    };
    if keeper.waiting() != 0 || published.published() != keeper.held() {
        return Err(Fault::Disagrees);
    }
    Ok(())
}
