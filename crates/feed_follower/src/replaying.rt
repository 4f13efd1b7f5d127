//! Has a subscriber replay the entries that are ready, and gives them to a sink one by one.
ghost use Rattle.std.specs.Prelude.{◌≡◌, ◌≢◌, ℕ, List, Option, [], OnErr, OnOk};
ghost use Rattle.std.specs.Io.KnownBytes.{Appends, Keeps};
ghost use Rattle.whole_io.specs.Writing.{WritesPrefix};
ghost use Rattle.feed_follower.specs.Followers.{KeepsNews, KeepsTerms};
ghost use Rattle.feed_follower.specs.Sinks.{GivesMore, GivesSome, HasAll, RowsGrow, rows_of};
ghost use Rattle.feed_ends.specs.declared.fault.Fault.TheVariants.{Disagrees, Memory};
ghost use Rattle.subscriber.specs.declared.drain_fault.Stop.TheVariants.{Refused};
ghost use Rattle.tape_core.specs.Tape.{row_figures};
ghost use Rattle.tape_core.specs.declared.refusal.Refusal.TheVariants.{OutOfMemory};

use crate::EntrySink;
use arbitration::REACH;
use feed_ends::Fault;
use subscriber::{DrainFault, Stop, Subscriber};
use tape_core::{Entry, Refusal, RowFigures};

/// Returns the run's fault for a drain that stopped.
fn fault_of_drain(fault: DrainFault) -> Fault
    ensures memory { fault.why ≡ Refused OutOfMemory → result ≡ Memory }
    ensures other { fault.why ≢ Refused OutOfMemory → result ≡ Disagrees }
{
    match fault.why {
        Stop::Refused(Refusal::OutOfMemory) => Fault::Memory,
        Stop::Refused(_) | Stop::OtherSummary | Stop::Failed => Fault::Disagrees,
    }
}

/// Has the subscriber replay what is ready.
fn replay_all(subscriber: &mut Subscriber) -> Result<(), Fault>
    ensures names { KeepsTerms subscriber.old.tape subscriber.new.tape }
    ensures news { KeepsNews subscriber.old subscriber.new }
    ensures grown { RowsGrow subscriber.old.tape subscriber.new.tape }
{
    match subscriber.drain() {
        Ok(_) => Ok(()),
        Err(fault) => Err(fault_of_drain(fault)),
    }
}

/// Gives a sink the last entry that the subscriber holds, with the figures of its symbol.
#[tactic(auto, using(crate::proofs::Rows::figures_found, crate::proofs::Rows::part_none))]
fn give<S: EntrySink>(subscriber: &Subscriber, entry: &Entry, sink: &mut S) -> Result<(), Fault>
    ensures given { OnOk result (Appends (S.contents sink.old) (S.contents sink.new)
        (S.text entry.now (row_figures subscriber.now.tape.matrix subscriber.now.tape.entries entry.now.message))) }
    ensures part { OnErr result (WritesPrefix
        (S.text entry.now (row_figures subscriber.now.tape.matrix subscriber.now.tape.entries entry.now.message)) (S.contents sink.old) (S.contents sink.new)) }
{
    let Some(consolidated) = subscriber.summary(entry.message.header().symbol) else {
        return Err(Fault::Disagrees);
    };
    match sink.take(entry, &RowFigures { consolidated }) {
        Ok(()) => Ok(()),
        Err(fault) => Err(fault.fault()),
    }
}

/// Has the subscriber replay the next entry, if one is ready, and gives it to a sink. Returns whether there was one.
#[tactic(auto, using(crate::proofs::Kept::news_at_next, crate::proofs::Rows::kept_at_next, crate::proofs::Rows::more_idle, crate::proofs::Rows::more_next, crate::proofs::Rows::some_next, crate::proofs::Rows::some_none))]
fn replay_next<S: EntrySink>(subscriber: &mut Subscriber, sink: &mut S) -> Result<bool, Fault>
    ensures names { KeepsTerms subscriber.old.tape subscriber.new.tape }
    ensures news { KeepsNews subscriber.old subscriber.new }
    ensures given { OnOk result (GivesMore S.text subscriber.old.tape subscriber.new.tape (S.contents sink.old) (S.contents sink.new)) }
    ensures part { OnErr result (GivesSome S.text subscriber.old.tape subscriber.new.tape (S.contents sink.old) (S.contents sink.new)) }
{
    let entry = match subscriber.drain_next() {
        Ok(Some(entry)) => entry,
        Ok(None) => return Ok(false),
        Err(fault) => return Err(fault_of_drain(fault)),
    };
    give(subscriber, &entry, sink)?;
    Ok(true)
}

/// Has the subscriber replay what is ready, and gives each entry to a sink.
fn replay_each<S: EntrySink>(subscriber: &mut Subscriber, sink: &mut S) -> Result<(), Fault>
    ensures names { KeepsTerms subscriber.old.tape subscriber.new.tape }
    ensures news { KeepsNews subscriber.old subscriber.new }
    ensures given { OnOk result (GivesMore S.text subscriber.old.tape subscriber.new.tape (S.contents sink.old) (S.contents sink.new)) }
    ensures part { OnErr result (GivesSome S.text subscriber.old.tape subscriber.new.tape (S.contents sink.old) (S.contents sink.new)) }
{
    // No more than `REACH` entries wait in a window.
    for _ in 0..REACH {
        match replay_next(subscriber, sink) {
            Ok(true) => {}
            Ok(false) => break,
            Err(fault) => return Err(fault),
        }
    }
    Ok(())
}

/// Flushes a sink, since nothing more is ready for now.
fn flush<S: EntrySink>(sink: &mut S) -> Result<(), Fault>
    ensures { Keeps (S.contents sink.old) (S.contents sink.new) }
{
    sink.flush()?;
    Ok(())
}

/// Has the subscriber replay what is ready, and gives a sink each entry of it, in order and once, as soon as it is held. The
/// sink is flushed after that. For a sink that takes nothing, all that is ready is replayed at once.
#[tactic(auto, using(crate::proofs::Rows::more_kept, crate::proofs::Rows::more_unknown, crate::proofs::Rows::some_none, crate::proofs::Rows::some_of_more, crate::proofs::Rows::some_kept))]
pub(crate) fn replay<S: EntrySink>(subscriber: &mut Subscriber, sink: &mut S) -> Result<(), Fault>
    ensures names { KeepsTerms subscriber.old.tape subscriber.new.tape }
    ensures news { KeepsNews subscriber.old subscriber.new }
    ensures given { OnOk result (GivesMore S.text subscriber.old.tape subscriber.new.tape (S.contents sink.old) (S.contents sink.new)) }
    ensures part { OnErr result (GivesSome S.text subscriber.old.tape subscriber.new.tape (S.contents sink.old) (S.contents sink.new)) }
{
    if sink.takes_nothing() {
        return replay_all(subscriber);
    }
    replay_each(subscriber, sink)?;
    flush(sink)
}

/// Tells a sink that the tape begins anew, if it was given entries of it. The sink's fault if it refuses.
#[tactic(auto, using(crate::proofs::Rows::all_anew, crate::proofs::Rows::nothing_of_all))]
pub(crate) fn begin_anew<S: EntrySink>(subscriber: &Subscriber, sink: &mut S) -> Result<(), Fault>
    ensures anew { OnOk result ((before : Option (List ℕ)) → HasAll (rows_of S.text subscriber.now.tape) before (S.contents sink.old)
        → HasAll [] before (S.contents sink.new)) }
    ensures kept { Keeps (S.contents sink.old) (S.contents sink.new) }
{
    if subscriber.held().is_empty() {
        return Ok(());
    }
    sink.restarted()?;
    Ok(())
}
