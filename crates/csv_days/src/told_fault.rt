//! Prints a fault of a table as a line.
ghost use Rattle.std.specs.Prelude.{◌≡◌, Some};
ghost use Rattle.csv_days.specs.Checks.{line_text, told_text};

use csv_messages::TableFault;
use std::fmt;

/// A fault of a table, and the line of the file in which its row begins.
#[derive(Clone, Copy, Debug, PartialEq, Eq)]
pub struct ToldFault {
    /// The fault.
    pub fault: TableFault,
    /// The line, from 1, or 0 for a fault that is no row's.
    pub line: u64,
}

/// Says the line of a row's fault, if it is not the row's number.
#[derive(Clone, Copy)]
struct OtherLine(u64, TableFault);

impl fmt::Display for OtherLine {
    ghost output = { λ l. Some (line_text l.0 l.1) };

    fn fmt<W: fmt::Write>(&self, f: &mut fmt::Formatter<W>) -> fmt::Result {
        match self.1 {
            TableFault::Row(number, _) if number != self.0 => {
                let line = self.0;
                write!(f, " (line {line})")
            }
            _ => Ok(()),
        }
    }
}

impl fmt::Display for ToldFault {
    ghost output = { λ told. Some (told_text told) };

    fn fmt<W: fmt::Write>(&self, f: &mut fmt::Formatter<W>) -> fmt::Result {
        let (fault, line) = (self.fault, OtherLine(self.line, self.fault));
        writeln!(f, "{fault}{line}")
    }
}
