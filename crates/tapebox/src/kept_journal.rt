//! Opens the journal of a day in its file, and says where the day is continued or why the journal is not opened.
ghost use Rattle.std.specs.Prelude.{◌≡◌, IfErr};
ghost use Rattle.whole_io.specs.Lines.{WritesLines};
ghost use Rattle.tapebox.specs.Journals.{IsJournalStatus, restored_of};

use crate::file_journal::FileJournal;
use crate::journal_fault::JournalFileFault;
use crate::journal_held::{hold_journal, sync_folder};
use crate::journal_place::JournalPlace;
use crate::sayings::say_of_journal;
use crate::write_cause::WriteCause;
use command_line::Status;
use days::Day;
use journal_start::{Past, PastLine, StartFault, Started, start_journal};
use live_feed::{DayJournal, JournalFile, Restored};
use std::alloc::{AllocError, Global};
use std::fs::{File, Files};
use std::io::Write;
use whole_io::Lines;

/// The open journal of a day.
#[derive(Drop)]
pub struct OpenJournal {
    /// Its path.
    pub path: String,
    /// The journal itself.
    pub journal: DayJournal<FileJournal>,
    /// How far the participants' lines had come.
    pub lines: Vec<PastLine>,
}

/// Returns what a journal had, for a running day, or `None` if it had no entry, and how far its lines had come.
fn split_past(alloc: Global, held: u32, past: Option<Past>) -> (Option<Restored>, Vec<PastLine>)
    ensures { result.0 ≡ restored_of held past }
{
    let Some(past) = past else {
        return (None, Vec::new(alloc));
    };
    let Past {
        journal,
        from,
        digest,
        lines,
    } = past;
    if held == 0 {
        return (None, lines);
    }
    let restored = Restored {
        journal,
        from,
        digest,
    };
    (Some(restored), lines)
}

/// Returns the started journal of a day in its file, and how far its lines had come.
fn day_journal<J: JournalFile>(
    alloc: Global,
    started: Started,
    file: J,
) -> (DayJournal<J>, Vec<PastLine>)
    ensures groups { result.0.groups ≡ started.groups }
    ensures file { result.0.file ≡ file }
    ensures restored { result.0.restored ≡ restored_of started.groups.held started.past }
{
    let Started {
        groups,
        past,
        cut_off: _,
    } = started;
    let (restored, lines) = split_past(alloc, groups.held(), past);
    let journal = DayJournal {
        groups,
        file,
        restored,
    };
    (journal, lines)
}

/// Has the disk keep that the file of a journal exists, if it is synced.
fn keep_place<R: Files<File = File>>(rt: &R, place: &JournalPlace) -> Result<(), JournalFileFault> {
    if !place.is_synced {
        return Ok(());
    }
    sync_folder(rt, &place.path).map_err(|error| JournalFileFault::Unstarted(
        StartFault::Unwritten,
        WriteCause::of(error.kind()),
    ))
}

/// Starts a day's journal in its file. Its folder is synced first, so that a journal that has a header is in it for good.
fn start<R: Files<File = File>>(
    rt: &R,
    alloc: Global,
    day: &Day,
    place: &JournalPlace,
) -> Result<(Started, FileJournal), JournalFileFault> {
    let held = hold_journal(rt, &place.path)?;
    keep_place(rt, place)?;
    let mut file = FileJournal::new(held, place.is_synced);
    let started = start_journal(alloc, day, &mut file).map_err(|fault| JournalFileFault::Unstarted(
        fault,
        file.cause(),
    ))?;
    Ok((started, file))
}

/// Returns what there is to say of a journal that was started: what was cut off, and where the day is continued.
fn lines_of(alloc: Global, path: &str, started: &Started) -> Result<Lines, AllocError> {
    let mut lines = Lines::new(alloc);
    if let Some(cut) = started.cut() {
        lines.push(&format_args!("journal {path}: {cut}"))?;
    }
    if let Some(went_on) = started.went_on() {
        lines.push(&went_on)?;
    }
    Ok(lines)
}

/// Says what there is to say of a journal that was started, unless there is no memory for it.
#[tactic(auto, using(crate::proofs::SayingLemmas::no_lines))]
fn say_started<E: Write>(alloc: Global, errors: &mut E, path: &str, started: &Started)
    ensures lines { WritesLines (E.contents errors.old) (E.contents errors.new) }
{
    if let Ok(lines) = lines_of(alloc, path, started) {
        let _said = lines.write(errors);
    }
}

/// Opens and holds the journal of a day, and says where the day is continued. If it is not opened, that is said and its status
/// returned.
pub fn open_journal<R: Files<File = File>, E: Write>(
    rt: &R,
    alloc: Global,
    day: &Day,
    place: JournalPlace,
    errors: &mut E,
) -> Result<OpenJournal, Status>
    ensures status { IfErr result IsJournalStatus }
    ensures lines { WritesLines (E.contents errors.old) (E.contents errors.new) }
{
    let (started, file) = match start(rt, alloc, day, &place) {
        Ok(started) => started,
        Err(fault) => {
            say_of_journal(alloc, errors, &place.path, &fault);
            return Err(fault.status());
        }
    };
    say_started(alloc, errors, &place.path, &started);
    let (journal, lines) = day_journal(alloc, started, file);
    Ok(OpenJournal {
        path: place.path,
        journal,
        lines,
    })
}
