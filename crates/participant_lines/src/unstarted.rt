//! Holds the lines that were not started, and why.

use crate::LineEnd;
use line_ledger::{DayName, LineSeat};

/// The reason why lines were not started.
#[derive(Clone, Copy, Debug, PartialEq, Eq)]
pub enum Lack {
    /// Memory ran out.
    Memory,
    /// No thread could be started.
    Worker,
}

/// Lines that were not started. It must be spent, since it holds their seats.
pub struct Unstarted<D: DayName, R> {
    /// The ends of the lines that ran: none, since either all lines are started or none is.
    pub ends: Vec<LineEnd<D>>,
    /// The lines that were not started, with their seats and readers.
    pub lines: Vec<(LineSeat<D>, R)>,
    /// Why they were not started.
    pub why: Lack,
}
