//! Starts a day's journal from the bytes it has: begins a new one, or continues one behind its whole groups.
ghost use Rattle.std.specs.Prelude.{◌≡◌, ◌≤◌, ◌↔◌, ◌⊎◌, IfErr, IfOk, IfSome, List, None, ℕ, OnOk, length, option_map, take};
ghost use Rattle.std.specs.Io.KnownBytes.{Keeps};
ghost use Rattle.days.specs.declared.day.Day.{Day};
ghost use Rattle.journal_start.specs.Starts.{Begins, GoesOn, HasHeader, HasInstead, IsCutTo, IsLeft, IsUnbegun, IsUnread, Refuses, RefusesBehind, Starts};
ghost use Rattle.journal_start.specs.declared.start_fault.StartFault.TheVariants.{OutOfMemory, Unwritten};

use crate::begun::begun_header;
use crate::journal_groups::{JournalGroups, read_groups};
use crate::start_fault::fault_of_reading;
use crate::{CutOff, JournalDisk, PastLine, StartFault, WentOn};
use day_journal::{GroupWriter, JournalHeader, put_header};
use days::Day;
use std::alloc::Global;
use whole_io::write_text;

/// What a journal of this day had.
#[derive(Drop)]
pub struct Past {
    /// The bytes of the journal, which end with a whole group or with the header.
    pub journal: Vec<u8>,
    /// The index at which its groups begin: the length of its header in bytes.
    pub from: usize,
    /// The header's digest, to which the first group is chained.
    pub digest: [u8; 32],
    /// How far the participants' lines had come, in listing order.
    pub lines: Vec<PastLine>,
}

/// A journal that was started.
#[derive(Drop)]
pub struct Started {
    /// The writer of groups, which continues behind the header, or behind the groups that the journal had.
    pub groups: GroupWriter,
    /// What the journal had, or `None` if it is new.
    pub past: Option<Past>,
    /// How many bytes of an incomplete group were cut off.
    pub cut_off: usize,
}

impl Started {
    /// Returns what was cut off the journal, or `None` if nothing was.
    pub fn cut(&self) -> Option<CutOff>
        ensures bytes { IfSome result (λ cut. cut.bytes ≡ self.now.cut_off) }
        ensures none { result ≡ None ↔ self.now.cut_off ≡ 0 }
    {
        match self.cut_off {
            0 => None,
            bytes => Some(CutOff { bytes }),
        }
    }

    /// Returns where the day is continued, or `None` if its journal had no entry.
    pub fn went_on(&self) -> Option<WentOn<'_>>
        ensures held { IfSome result (λ went_on. went_on.held ≡ self.now.groups.held) }
        ensures lines { IfSome result (λ went_on. IfSome self.now.past (λ past. went_on.lines.now ≡ past.lines.items)) }
        ensures none { result ≡ None → (self.now.groups.held ≡ 0) ⊎ (self.now.past ≡ None) }
    {
        let held = self.groups.held();
        match &self.past {
            Some(past) if held > 0 => Some(WentOn {
                held,
                lines: &past.lines,
            }),
            _ => None,
        }
    }
}

/// Replaces all bytes with the header of a new journal, and keeps it.
#[tactic(auto, using(crate::proofs::DiskLemmas::header_written))]
fn write_header<F: JournalDisk>(disk: &mut F, text: &[u8]) -> Result<(), StartFault>
    ensures written { OnOk result (HasInstead text.now (F.contents disk.old) (F.contents disk.new)) }
    ensures fault { IfErr result (λ fault. fault ≡ Unwritten) }
{
    if disk.cut(0).is_err() || write_text(disk, text).is_err() || disk.settle().is_err() {
        return Err(StartFault::Unwritten);
    }
    Ok(())
}

/// Begins a new journal, which then has only its header, and keeps it.
fn begin<F: JournalDisk>(alloc: Global, day: &Day, disk: &mut F) -> Result<Started, StartFault>
    ensures begun { IfOk result (λ s. (bytes : List ℕ) → IsUnbegun bytes → Begins s day.now bytes (F.contents disk.old) (F.contents disk.new)) }
    ensures left { IfErr result (λ fault. IsLeft fault (F.contents disk.old) (F.contents disk.new)) }
    ensures fault { IfErr result (λ fault. (fault ≡ Unwritten) ⊎ (fault ≡ OutOfMemory)) }
{
    let mut text = Vec::new(alloc);
    let digest = put_header(day, &mut text)?;
    write_header(disk, &text)?;
    Ok(Started {
        groups: GroupWriter::new(alloc, day.session, 0, digest),
        past: None,
        cut_off: 0,
    })
}

/// Cuts a journal after `whole` bytes, and keeps the cut.
#[tactic(auto, using(crate::proofs::DiskLemmas::cut_kept))]
fn cut_after<F: JournalDisk>(disk: &mut F, whole: usize) -> Result<(), StartFault>
    ensures cut { OnOk result (Keeps (option_map (take whole) (F.contents disk.old)) (F.contents disk.new)) }
    ensures fault { IfErr result (λ fault. fault ≡ Unwritten) }
{
    if disk.cut(whole).is_err() || disk.settle().is_err() {
        return Err(StartFault::Unwritten);
    }
    Ok(())
}

/// Cuts a journal to its whole groups if `cut_off` is not 0, the number of bytes behind them.
#[tactic(auto, using(crate::proofs::DiskLemmas::kept))]
fn cut_to<F: JournalDisk>(disk: &mut F, whole: usize, cut_off: usize) -> Result<(), StartFault>
    ensures cut { OnOk result (IsCutTo whole cut_off (F.contents disk.old) (F.contents disk.new)) }
    ensures fault { IfErr result (λ fault. fault ≡ Unwritten) }
{
    if cut_off == 0 {
        return Ok(());
    }
    cut_after(disk, whole)
}

/// Continues the journal of a day, which has this header and these bytes. A group that was cut off is removed.
fn go_on<F: JournalDisk>(
    alloc: Global,
    header: JournalHeader,
    bytes: Vec<u8>,
    disk: &mut F,
) -> Result<Started, StartFault>
    requires { header.len ≤ length bytes.items }
    ensures goes { IfOk result (λ s. (day : Day) → HasHeader header day bytes.items → GoesOn s day bytes.items (F.contents disk.old) (F.contents disk.new)) }
    ensures left { IfErr result (λ fault. IsLeft fault (F.contents disk.old) (F.contents disk.new)) }
    ensures refused { IfErr result (λ fault. RefusesBehind fault header bytes.items) }
{
    let JournalGroups {
        held,
        digest,
        whole,
        lines,
    } = read_groups(alloc, &header, &bytes)?;
    let cut_off = bytes.len().saturating_sub(whole);
    cut_to(disk, whole, cut_off)?;
    let mut journal = bytes;
    journal.truncate(whole);
    Ok(Started {
        groups: GroupWriter::new(alloc, header.day.session, held, digest),
        past: Some(Past {
            journal,
            from: header.len,
            digest: header.digest,
            lines,
        }),
        cut_off,
    })
}

/// Starts a day's journal from the bytes that were read of it.
fn start_from<F: JournalDisk>(
    alloc: Global,
    day: &Day,
    bytes: Vec<u8>,
    disk: &mut F,
) -> Result<Started, StartFault>
    ensures starts { IfOk result (λ s. Starts s day.now bytes.items (F.contents disk.old) (F.contents disk.new)) }
    ensures left { IfErr result (λ fault. IsLeft fault (F.contents disk.old) (F.contents disk.new)) }
    ensures refused { IfErr result (λ fault. Refuses fault day.now bytes.items) }
{
    match begun_header(alloc, day, &bytes)? {
        Some(header) => go_on(alloc, header, bytes, disk),
        None => begin(alloc, day, disk),
    }
}

/// Returns the bytes of a journal.
fn bytes_of<F: JournalDisk>(alloc: Global, disk: &mut F) -> Result<Vec<u8>, StartFault>
    ensures same { Keeps (F.contents disk.old) (F.contents disk.new) }
    ensures bytes { IfOk result (λ bytes. IfSome (F.contents disk.old) (λ held. bytes.items ≡ held)) }
    ensures fault { IfErr result IsUnread }
{
    let read = disk.read_whole(alloc);
    read.map_err(|error| fault_of_reading(error.kind()))
}

/// Starts the journal of a day. If none was begun, a new one is: its header is written and kept. A journal of the same day is
/// continued behind its whole groups: a group that was cut off is removed. Any other is refused and left unchanged, even one
/// with a damaged header or group. Only after `Unwritten` may the journal have other bytes than before.
#[tactic(auto, using(crate::proofs::StartLemmas::unread, crate::proofs::StartLemmas::starts_before, crate::proofs::StartLemmas::refused_before))]
pub fn start_journal<F: JournalDisk>(
    alloc: Global,
    day: &Day,
    disk: &mut F,
) -> Result<Started, StartFault>
    // The bytes are those that were read. If the disk's bytes are known, they are those that it had.
    ensures starts { IfOk result (λ s. (bytes : List ℕ) × IfSome (F.contents disk.old) (λ held. bytes ≡ held)
        × Starts s day.now bytes (F.contents disk.old) (F.contents disk.new)) }
    ensures left { IfErr result (λ fault. IsLeft fault (F.contents disk.old) (F.contents disk.new)) }
    ensures refused { IfErr result (λ fault. (bytes : List ℕ) × IfSome (F.contents disk.old) (λ held. bytes ≡ held) × Refuses fault day.now bytes) }
{
    let bytes = bytes_of(alloc, disk)?;
    start_from(alloc, day, bytes, disk)
}
