//! Checks a whole table: makes the lines of its first faults, counts the others by kind, and collects its names.
ghost use Rattle.std.specs.Prelude.{◌≡◌, ◌↔◌, ◌⊎◌, ◌+◌, ◌-◌, ◌<◌, ◌^◌, ◌++◌, ◌∷◌, List, [], IfErr, IfOk, IfSome, IsTrue, OnOk, length, min};
ghost use Rattle.csv_messages.specs.TableReading.{ReadsRows, lines_remaining};
ghost use Rattle.csv_messages.specs.declared.table_fault.TableFault.{TableFault as Fault};
ghost use Rattle.csv_messages.specs.declared.table_fault.TableFault.TheVariants.{OutOfMemory, ReadFault, Row};
ghost use Rattle.csv_days.specs.EndDays.{AreNames};
ghost use Rattle.csv_days.specs.Checks.{AreTold, IsCheckOfText, NotesAll, NotesEnd, NotesNone, NotesRow, Tells, told_text};

use crate::day_names::DayNames;
use crate::fault_counts::FaultCounts;
use crate::told_fault::ToldFault;
use csv_messages::{FIRST_ROW, LineReader, RowFault, RowReader, TableFault};
use reports::Message;
use std::alloc::{AllocError, Global};
use std::io::Read;

/// How many faults get a line of their own.
pub const FAULTS_TOLD: usize = 100;

/// Returns whether a read failed or memory ran out.
fn is_of_reading(fault: &TableFault) -> bool
    ensures { IsTrue result ↔ ((fault.now ≡ ReadFault) ⊎ (fault.now ≡ OutOfMemory)) }
{
    matches!(fault, TableFault::ReadFault | TableFault::OutOfMemory)
}

/// What was found in a table: its first faults, how many more there are of each kind, and its names.
#[derive(Drop)]
pub struct TableCheck {
    /// How many faults have a line of their own.
    pub told: usize,
    /// Their lines, one after another.
    pub lines: Vec<u8>,
    /// The faults after them, by kind.
    pub more: FaultCounts,
    /// The names of the rows that are messages.
    pub names: DayNames,
    /// How many rows stand below the header row.
    pub rows: u64,
}

impl TableCheck {
    /// Creates a check of nothing.
    fn none(alloc: Global) -> TableCheck
        ensures told { AreTold [] result.told result.lines.items result.more }
        ensures names { AreNames [] result.names }
        ensures rows { result.rows ≡ 0 }
    {
        TableCheck {
            told: 0,
            lines: Vec::new(alloc),
            more: FaultCounts::none(),
            names: DayNames::new(alloc),
            rows: 0,
        }
    }

    /// Adds the line of a fault.
    fn tell(&mut self, alloc: Global, fault: ToldFault) -> Result<(), AllocError>
        ensures told { OnOk result (self.new.told ≡ min (self.old.told + 1) (2 ^ 64 - 1)) }
        ensures lines { OnOk result (self.new.lines.items ≡ self.old.lines.items ++ told_text fault) }
        ensures more { self.new.more ≡ self.old.more }
        ensures names { self.new.names ≡ self.old.names }
        ensures rows { self.new.rows ≡ self.old.rows }
    {
        let line = format!(in alloc; "{fault}")?;
        self.lines.extend_from_slice(line.as_bytes())?;
        self.told = self.told.saturating_add(1);
        Ok(())
    }

    /// Adds the line of the fault of the row of this number, or counts it if `FAULTS_TOLD` have a line.
    fn add_fault(
        &mut self,
        alloc: Global,
        number: u64,
        fault: RowFault,
        line: u64,
    ) -> Result<(), AllocError>
        ensures told { OnOk result ((faults : List Fault) → length faults + 1 < 2 ^ 64 → AreTold faults self.old.told self.old.lines.items self.old.more
            → AreTold (faults ++ Row number fault ∷ []) self.new.told self.new.lines.items self.new.more) }
        ensures line { OnOk result (Tells self.old self.new (record { fault = Row number fault; line = line })) }
        ensures names { self.new.names ≡ self.old.names }
    {
        if self.told >= FAULTS_TOLD {
            self.more.add(&fault);
            return Ok(());
        }
        let fault = TableFault::Row(number, fault);
        self.tell(alloc, ToldFault { fault, line })
    }

    /// Adds the line of a fault that is the only one.
    fn add_only(&mut self, alloc: Global, fault: TableFault) -> Result<(), AllocError>
        ensures told { OnOk result (AreTold [] self.old.told self.old.lines.items self.old.more
            → AreTold (fault ∷ []) self.new.told self.new.lines.items self.new.more) }
        ensures names { self.new.names ≡ self.old.names }
    {
        self.tell(alloc, ToldFault { fault, line: 0 })
    }

    /// Notes the message or the fault of the row of this number, which begins in this line of the file.
    fn add_row(
        &mut self,
        alloc: Global,
        number: u64,
        row: Result<Message, RowFault>,
        line: u64,
    ) -> Result<(), AllocError>
        ensures notes { OnOk result (NotesRow self.old self.new number row) }
        ensures line { OnOk result (IfErr row (λ fault. Tells self.old self.new (record { fault = Row number fault; line = line }))) }
    {
        match row {
            Ok(message) => self.names.add(&message),
            Err(fault) => self.add_fault(alloc, number, fault, line),
        }
    }

    /// Notes how many rows there are, and the fault if there are none.
    fn end_at(&mut self, alloc: Global, rows: u64) -> Result<(), AllocError>
        ensures { OnOk result (NotesEnd self.old self.new rows) }
    {
        self.rows = rows;
        if rows == 0 {
            self.add_only(alloc, TableFault::NoRow)?;
        }
        Ok(())
    }

    /// Notes the messages and the faults of all rows.
    fn add_rows<R: Read>(
        &mut self,
        alloc: Global,
        rows: &mut RowReader<LineReader<R>>,
    ) -> Result<(), TableFault>
        requires reads { ReadsRows rows.old }
        requires fresh { NotesNone self.old }
        ensures check { OnOk result (NotesAll (lines_remaining R.remaining) rows.old self.new) }
        ensures fault { IfErr result (λ fault. (fault ≡ ReadFault) ⊎ (fault ≡ OutOfMemory)) }
    {
        for number in FIRST_ROW..u64::MAX {
            rows.source().await_record();
            let Some(row) = rows.next()? else {
                self.end_at(alloc, number - FIRST_ROW)?;
                return Ok(());
            };
            let line = rows.source().line();
            self.add_row(alloc, number, row, line)?;
        }
        Err(TableFault::OutOfMemory)
    }

    /// Checks a table, which is read to its end unless its header row is at fault. Errors: only a failed read, or memory that
    /// runs out.
    pub fn of_table<R: Read + Drop>(alloc: Global, reader: R) -> Result<TableCheck, TableFault>
        ensures check { IfSome (R.remaining reader) (λ input. IfOk result (IsCheckOfText input)) }
        ensures fault { IfErr result (λ fault. (fault ≡ ReadFault) ⊎ (fault ≡ OutOfMemory)) }
    {
        let mut check = TableCheck::none(alloc);
        let lines = LineReader::new(alloc, reader)?;
        match RowReader::open(alloc, lines) {
            Ok(mut rows) => check.add_rows(alloc, &mut rows)?,
            Err(fault) if is_of_reading(&fault) => return Err(fault),
            Err(fault) => check.add_only(alloc, fault)?,
        }
        Ok(check)
    }
}
