//! Prints a journal's faults and verdicts.

use crate::{JournalFault, JournalVerdict};
use day_journal::{JournalHeaderFault, ReplayFault};
use sale_matrix::Matrix;
use std::alloc::{AllocError, Global};
use std::fmt;

/// Returns the words for a header's fault.
fn header_words(fault: JournalHeaderFault) -> &'static str {
    match fault {
        JournalHeaderFault::NoJournal => "this is no journal",
        JournalHeaderFault::OtherVersion => "the journal is of another version",
        JournalHeaderFault::Short => "the journal ends within its header",
        JournalHeaderFault::Damaged => "the journal's header is damaged",
        JournalHeaderFault::OutOfMemory => "memory ran out",
    }
}

/// Returns the words for a journal with another matrix than the one that was asked for.
fn matrix_words(matrix: Matrix) -> &'static str {
    match matrix {
        Matrix::One => "the journal goes by matrix 1",
        Matrix::Two => "the journal goes by matrix 2",
    }
}

/// Prints why an entry is not the tape's next one.
fn print_entry<W: fmt::Write>(f: &mut fmt::Formatter<W>, fault: ReplayFault) -> fmt::Result {
    match fault {
        ReplayFault::Refused { number, refusal } => {
            let code = refusal.code();
            write!(f, "entry {number} is refused: {code} {refusal}")
        }
        ReplayFault::Differs { number } => {
            write!(
                f,
                "entry {number} carries other figures than its messages give"
            )
        }
    }
}

/// Prints that the group with this first entry is damaged, and how many entries it should have if that is known.
fn print_damage<W: fmt::Write>(
    f: &mut fmt::Formatter<W>,
    first: u32,
    count: Option<u32>,
) -> fmt::Result {
    write!(f, "the group from entry {first} on is damaged")?;
    match count {
        Some(count) => write!(f, ", of {count} entries by its own end"),
        None => Ok(()),
    }
}

impl fmt::Display for JournalFault {
    fn fmt<W: fmt::Write>(&self, f: &mut fmt::Formatter<W>) -> fmt::Result {
        match self {
            JournalFault::Header(fault) => f.write_str(header_words(*fault)),
            JournalFault::OtherMatrix(matrix) => f.write_str(matrix_words(*matrix)),
            JournalFault::Entry(fault) => print_entry(f, *fault),
            JournalFault::Damaged { first, count } => print_damage(f, *first, *count),
            JournalFault::OutOfMemory => f.write_str("memory ran out"),
        }
    }
}

/// Returns the noun for this many entries.
fn entries_noun(count: usize) -> &'static str {
    if count == 1 { "entry" } else { "entries" }
}

impl fmt::Display for JournalVerdict {
    fn fmt<W: fmt::Write>(&self, f: &mut fmt::Formatter<W>) -> fmt::Result {
        match self {
            JournalVerdict::Recorded { count } => {
                let noun = entries_noun(*count);
                write!(f, "{count} {noun}, all as recorded")
            }
            JournalVerdict::CutOff { count, from } => {
                let noun = entries_noun(*count);
                write!(
                    f,
                    "{count} {noun}, all as recorded up to byte {from}, behind which a group is cut off"
                )
            }
            JournalVerdict::Differs(fault) => print_entry(f, *fault),
            JournalVerdict::Damaged { first, count } => print_damage(f, *first, *count),
        }
    }
}

/// Returns what a fault prints. `AllocError` if memory runs out.
pub fn fault_text(alloc: Global, fault: &JournalFault) -> Result<String, AllocError> {
    fault.to_string(alloc)
}

/// Returns what a verdict prints. `AllocError` if memory runs out.
pub fn verdict_text(alloc: Global, verdict: &JournalVerdict) -> Result<String, AllocError> {
    verdict.to_string(alloc)
}
