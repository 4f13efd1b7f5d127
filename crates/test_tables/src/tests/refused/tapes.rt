//! Tests how a tape is made, and how it admits and replays messages of each kind.

use super::days::{self, MESSAGES};
use reports::Message;
use sale_matrix::Matrix;
use scratch_fold::Summary;
use std::alloc::Global;
use std::process::Abort;
use std::test::Fail;
use summaries::{IndexStore, ScratchStore, Store};
use tape_core::{Entry, IndexedTape, Refusal, Tape, TapeFault, run};
use tape_types::{Participant, Symbol, TapeNumber};

/// The consolidated summaries of AB and CD, and the summaries of N and of Q in each.
type Shown = [Option<Summary>; 6];

fn shown<S: Store>(tape: &Tape<S>) -> Option<Shown> {
    let (ab, cd) = (Symbol::try_new(days::AB)?, Symbol::try_new(days::CD)?);
    let (n, q) = (Participant::try_new(b'N')?, Participant::try_new(b'Q')?);
    Some([
        tape.summary(ab),
        tape.summary(cd),
        tape.summary_of(ab, n),
        tape.summary_of(ab, q),
        tape.summary_of(cd, n),
        tape.summary_of(cd, q),
    ])
}

/// Whether the tape has these entries and shows these summaries.
fn is_as_before<S: Store>(tape: &Tape<S>, held: &[Entry], before: &Option<Shown>) -> bool {
    tape.entries() == held && shown(tape) == *before
}

/// How a message comes to a tape.
#[derive(Clone, Copy)]
enum By {
    Admission,
    Replay,
}

fn give<S: Store>(tape: &mut Tape<S>, by: By, message: &Message) -> Result<Entry, Refusal> {
    match by {
        By::Admission => tape.admit(*message),
        By::Replay => {
            let next = (tape.entries().len() as u32).wrapping_add(1);
            match TapeNumber::try_new(next) {
                Some(number) => tape.replay(number, *message),
                None => Err(Refusal::Full),
            }
        }
    }
}

/// Gives the tape a message, and returns its entry and whether memory was first refused for it. A refusal leaves the tape with
/// the entries that it held and the summaries that it showed, and the same message is taken next.
fn take<S: Store, A: Abort>(
    rt: &A,
    tape: &mut Tape<S>,
    by: By,
    message: &Message,
    held: &[Entry],
) -> (Entry, bool) {
    let before = shown(tape);
    match give(tape, by, message) {
        Ok(entry) => return (entry, false),
        Err(refusal) => assert_eq!(rt; refusal, Refusal::OutOfMemory),
    }
    let is_same = is_as_before(tape, held, &before);
    assert!(rt; is_same);
    match give(tape, by, message) {
        Ok(entry) => (entry, true),
        Err(_) => panic!(rt; "the message is refused twice"),
    }
}

/// A tape, made again if memory was refused for it.
fn tape<S: Store, A: Abort>(rt: &A, alloc: Global) -> Result<Tape<S>, Fail> {
    for _ in 0..2 {
        let listing = days::listing(alloc).ok_or("a listing")?;
        match Tape::new(alloc, listing, MESSAGES, Matrix::One) {
            Ok(tape) => return Ok(tape),
            Err(fault) => assert_eq!(rt; fault, TapeFault::OutOfMemory),
        }
    }
    panic!(rt; "memory was refused twice")
}

fn kind(message: &Message) -> &'static str {
    match message {
        Message::Report { .. } => "a report",
        Message::Cancel { .. } => "a cancel",
        Message::Correct { .. } => "a correction",
        Message::Reinstate { .. } => "a reinstatement",
    }
}

/// The name of the way by which a message came.
fn way(by: By) -> &'static str {
    match by {
        By::Admission => "admitted",
        By::Replay => "replayed",
    }
}

/// Gives a tape the day's message at an index, appends its entry to those that it holds, and prints a message that it took
/// again. `None` if there is no message or no room.
fn take_next<S: Store, A: Abort + Print>(
    rt: &A,
    tape: &mut Tape<S>,
    by: By,
    held: &mut Vec<Entry>,
    index: u32,
) -> Option<()> {
    let message = days::message(index)?;
    let (entry, is_again) = take(rt, tape, by, &message, held);
    if is_again {
        let _ = println!(rt; "{}: {} again", way(by), kind(&message));
    }
    held.push(entry).ok()
}

/// Gives a tape the day's messages one by one. `None` if one is missing, or there is no room for the entries.
fn take_messages<S: Store, A: Abort + Print>(
    rt: &A,
    tape: &mut Tape<S>,
    by: By,
    held: &mut Vec<Entry>,
) -> Option<()> {
    for index in 0..MESSAGES {
        take_next(rt, tape, by, held, index)?;
    }
    Some(())
}

/// The same for a new tape.
fn take_all<S: Store, A: Abort + Print>(rt: &A, alloc: Global, by: By) -> Result<(), Fail> {
    let mut held = Vec::with_capacity(alloc, MESSAGES as usize)?;
    let mut tape = tape::<S, A>(rt, alloc)?;
    take_messages(rt, &mut tape, by, &mut held).ok_or("a message")?;
    assert!(rt; tape.entries() == held.as_slice());
    Ok(())
}

#[test]
fn a_tape_over_indexes_admits_again_what_was_refused(rt: HostRuntime) -> Result<(), Fail> {
    take_all::<IndexStore, HostRuntime>(&rt, rt.alloc(), By::Admission)
}

#[test]
fn a_tape_over_the_plain_store_admits_again_what_was_refused(rt: HostRuntime) -> Result<(), Fail> {
    take_all::<ScratchStore, HostRuntime>(&rt, rt.alloc(), By::Admission)
}

#[test]
fn a_tape_replays_again_what_was_refused(rt: HostRuntime) -> Result<(), Fail> {
    take_all::<IndexStore, HostRuntime>(&rt, rt.alloc(), By::Replay)
}

/// The day's messages.
fn messages(alloc: Global) -> Result<Vec<Message>, Fail> {
    let mut messages = Vec::with_capacity(alloc, MESSAGES as usize)?;
    for index in 0..MESSAGES {
        messages.push(days::message(index).ok_or("a message")?)?;
    }
    Ok(messages)
}

/// How many of these answers are entries, and how many are refusals for lack of memory.
fn answer_counts(answers: &[Result<Entry, Refusal>]) -> (usize, usize) {
    let mut entries: usize = 0;
    let mut refused: usize = 0;
    for answer in answers {
        match answer {
            Ok(_) => entries = entries.wrapping_add(1),
            Err(Refusal::OutOfMemory) => refused = refused.wrapping_add(1),
            Err(_) => {}
        }
    }
    (entries, refused)
}

/// The answers of a run, which is made again if memory was refused for them.
fn answers_of<A: Abort>(
    rt: &A,
    alloc: Global,
    tape: &mut IndexedTape,
    messages: &[Message],
) -> Vec<Result<Entry, Refusal>> {
    for _ in 0..2 {
        match run(alloc, tape, messages) {
            Ok(answers) => return answers,
            Err(_) => assert!(rt; tape.entries().is_empty()),
        }
    }
    panic!(rt; "memory was refused twice")
}

/// Asserts that a run of these messages has answered each, and that a refusal for memory takes no more with it than the cancel
/// and the reinstatement of its report.
fn assert_answered<A: Abort + Print>(
    rt: &A,
    tape: &IndexedTape,
    messages: &[Message],
    answers: &[Result<Entry, Refusal>],
) {
    let (entries, refused) = answer_counts(answers);
    assert!(rt; answers.len() == messages.len() && tape.entries().len() == entries);
    assert!(rt; refused <= 1 && entries.saturating_add(3) >= messages.len());
    assert!(rt; refused == 1 || entries == messages.len());
    if refused == 1 {
        let _ = println!(rt; "one answer 40 in a run");
    }
}

#[test]
fn a_run_answers_each_message_though_memory_is_refused(rt: HostRuntime) -> Result<(), Fail> {
    let messages = messages(rt.alloc())?;
    let mut tape = tape::<IndexStore, HostRuntime>(&rt, rt.alloc())?;
    let answers = answers_of(&rt, rt.alloc(), &mut tape, &messages);
    assert_answered(&rt, &tape, &messages, &answers);
    Ok(())
}
