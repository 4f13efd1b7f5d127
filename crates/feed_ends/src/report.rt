//! Writes the report of a day, whose rows several workers make.
ghost use Rattle.std.specs.Prelude.{◌≡◌, ◌≢◌, ◌⊎◌, IfErr, IfOk, OnOk};
ghost use Rattle.std.specs.Io.KnownBytes.{Appends};
ghost use Rattle.day_report.specs.ReportText.{report_text};
ghost use Rattle.day_report.specs.Rows.{report_rows};
ghost use Rattle.day_report.specs.declared.report_fault.ReportFault.TheVariants.{OutOfMemory as ReportOutOfMemory};
ghost use Rattle.feed_ends.specs.Reports.{IsListing, report_end};
ghost use Rattle.feed_ends.specs.declared.fault.Fault.TheVariants.{Memory, Write};

use crate::Fault;
use day_report::{ReportFault, Row, rows, write_report};
use std::alloc::Global;
use std::io::Write;
use std::thread::Threads;
use tape_core::IndexedTape;
use tape_types::NoGate;
use whole_io::flush;

/// The number of workers that make the rows of a report, if a thread can be started for them.
const WORKERS: usize = 4;

impl From<ReportFault> for Fault {
    ghost use Rattle.std.specs.Prelude.{◌≡◌};

    ghost from_gives = { λ fault made. made ≡ report_end fault };

    fn from(fault: ReportFault) -> Fault {
        match fault {
            ReportFault::BadWorkers | ReportFault::Unstarted => Fault::Worker,
            ReportFault::OutOfMemory => Fault::Memory,
            ReportFault::WriteFault => Fault::Write,
        }
    }
}

/// Returns the rows of a tape, which several workers make. If no thread can be started for them, one worker makes the rows,
/// which needs no thread, so a finished day is not lost for lack of a thread.
fn rows_of<R: Threads + Sync>(
    rt: &R,
    alloc: Global,
    tape: &IndexedTape,
) -> Result<Vec<Row>, ReportFault>
    ensures rows { IfOk result (λ rows. rows.items ≡ report_rows tape.now) }
    ensures memory { IfErr result (λ fault. fault ≡ ReportOutOfMemory) }
{
    match rows(rt, alloc, tape, WORKERS, &NoGate) {
        Err(ReportFault::Unstarted) => rows(rt, alloc, tape, 1, &NoGate),
        made => made,
    }
}

/// Writes the report of a tape and flushes the writer.
pub fn write_day<R: Threads + Sync, W: Write>(
    rt: &R,
    alloc: Global,
    tape: &IndexedTape,
    writer: &mut W,
) -> Result<(), Fault>
    ensures names { IsListing tape.now.listing }
    ensures written { OnOk result (Appends (W.contents writer.old) (W.contents writer.new) (report_text (report_rows tape.now))) }
    ensures unwritten { IfErr result (λ fault. fault ≢ Write → writer.new ≡ writer.old) }
    ensures fault { IfErr result (λ fault. (fault ≡ Memory) ⊎ (fault ≡ Write)) }
{
    // For the proof alone: by the clauses of this call a tape's listing is a day's.
    let _ = tape.listing().symbols();
    let rows = rows_of(rt, alloc, tape)?;
    write_report(alloc, &rows, writer)?;
    flush(writer).map_err(|_| Fault::Write)
}
