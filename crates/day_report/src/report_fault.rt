//! The errors of a report, each with its number and its name.
ghost use Rattle.std.specs.Prelude.{◌≡◌, ◌≢◌, Some};
ghost use Rattle.day_report.specs.ReportFaults.{report_fault_code, report_fault_name};
ghost use Rattle.day_report.specs.declared.report_fault.ReportFault.TheVariants.{OutOfMemory, WriteFault as FailedWrite};
ghost use Rattle.whole_io.specs.declared.writing_fault.WritingFault.TheVariants.{OutOfMemory as NoMemory, WriteFault as FailedText};

use std::alloc::AllocError;
use std::fmt;
use thiserror::Error;
use whole_io::{WriteFault, WritingFault};

/// Why the rows of a report were not made, or its text was not written. It is printed as its name.
#[derive(Clone, Copy, Debug, PartialEq, Eq, Error)]
pub enum ReportFault {
    /// The number of workers is 0 or more than `WORKERS_MOST`.
    BadWorkers = 95,
    /// No thread could be started for the workers.
    Unstarted = 96,
    /// Memory ran out.
    OutOfMemory = 97,
    /// A write failed.
    WriteFault = 98,
}

impl ReportFault {
    /// The number of the fault.
    pub fn code(self) -> u8
        ensures number { result ≡ report_fault_code self }
    {
        self as u8
    }

    /// The name of the fault, as it is printed.
    pub fn name(self) -> &'static str
        ensures text { result.now ≡ report_fault_name self }
    {
        match self {
            ReportFault::BadWorkers => "BadWorkers",
            ReportFault::Unstarted => "Unstarted",
            ReportFault::OutOfMemory => "OutOfMemory",
            ReportFault::WriteFault => "WriteFault",
        }
    }
}

impl fmt::Display for ReportFault {
    ghost output = { λ e. Some (report_fault_name e) };

    fn fmt<W: fmt::Write>(&self, f: &mut fmt::Formatter<W>) -> fmt::Result {
        f.write_str(self.name())
    }
}

impl From<AllocError> for ReportFault {
    ghost use Rattle.std.specs.Prelude.{◌≡◌};

    ghost from_gives = { λ _ fault. fault ≡ OutOfMemory };

    fn from(_error: AllocError) -> ReportFault {
        ReportFault::OutOfMemory
    }
}

impl From<WriteFault> for ReportFault {
    ghost use Rattle.std.specs.Prelude.{◌≡◌};

    ghost from_gives = { λ _ fault. fault ≡ FailedWrite };

    fn from(_fault: WriteFault) -> ReportFault {
        ReportFault::WriteFault
    }
}

impl From<ReportFault> for WritingFault {
    ghost use Rattle.std.specs.Prelude.{◌≡◌, ◌≢◌};

    ghost from_gives = { λ fault written. (fault ≡ FailedWrite → written ≡ FailedText) × (fault ≢ FailedWrite → written ≡ NoMemory) };

    fn from(fault: ReportFault) -> WritingFault {
        match fault {
            ReportFault::WriteFault => WritingFault::WriteFault,
            // A report by one worker starts no thread.
            ReportFault::BadWorkers | ReportFault::Unstarted | ReportFault::OutOfMemory => {
                WritingFault::OutOfMemory
            }
        }
    }
}
