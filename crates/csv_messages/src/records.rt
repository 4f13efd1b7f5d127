//! Reads the records of a text by csv.
ghost use Rattle.std.specs.Prelude.{◌≡◌, ◌++◌, ◌∷◌, ◌⊎◌, [], ℕ, List, true, false, IfOk, IfErr, IfSome, IsTrue, OnOk};
ghost use Rattle.csv.specs.Reading.{is_io, stops_reader};
ghost use Rattle.csv.specs.Records.{fields_of};
ghost use Rattle.csv_messages.specs.TableReading.{HasRead, IsPlain};
ghost use Rattle.csv_messages.specs.Tables.{AreTableRecords};
ghost use Rattle.csv_messages.specs.declared.table_fault.TableFault.TheVariants.{OutOfMemory, ReadFault};

use crate::TableFault;
use csv::{ByteRecord, ErrorKind, Reader, ReaderBuilder};
use std::alloc::Global;
use std::io::Read;

/// Returns a reader of records that treats the first as any other, and lets each have its own number of fields.
pub fn records_in<R: Read>(alloc: Global, reader: R) -> Reader<R>
    ensures plain { IsPlain result }
    ensures start { IfSome (R.remaining reader) (λ input. HasRead R.remaining result input []) }
{
    ReaderBuilder::new()
        .has_headers(false)
        .flexible(true)
        .from_reader(alloc, reader)
}

/// Returns the fault of a read that failed because memory ran out or in the reader underneath.
fn failed_read(kind: &ErrorKind) -> TableFault
    requires stopped { IsTrue (stops_reader kind.now) }
    ensures memory { kind.now ≡ ErrorKind.OutOfMemory → result ≡ OutOfMemory }
    ensures read { IsTrue (is_io kind.now) → result ≡ ReadFault }
{
    match kind {
        ErrorKind::OutOfMemory => TableFault::OutOfMemory,
        ErrorKind::Io(_) => TableFault::ReadFault,
        ErrorKind::Utf8 { .. }
        | ErrorKind::UnequalLengths { .. }
        | ErrorKind::Serialize(_)
        | ErrorKind::Deserialize { .. } => unreachable!(),
    }
}

/// Reads the next record, and returns whether there was one.
pub fn next_record<R: Read>(
    reader: &mut Reader<R>,
    fields: &mut ByteRecord,
) -> Result<bool, TableFault>
    requires plain { IsPlain reader.old }
    ensures plain { OnOk result (IsPlain reader.new) }
    ensures more { IfOk result (λ found. found ≡ true → (input : List ℕ) (records : List (List (List ℕ)))
        → HasRead R.remaining reader.old input records → HasRead R.remaining reader.new input (records ++ fields_of fields.new ∷ [])) }
    ensures end { IfOk result (λ found. found ≡ false → (input : List ℕ) (records : List (List (List ℕ)))
        → HasRead R.remaining reader.old input records → AreTableRecords input records) }
    ensures fault { IfErr result (λ fault. (fault ≡ ReadFault) ⊎ (fault ≡ OutOfMemory)) }
{
    let read = reader.read_byte_record(fields);
    read.map_err(|error| failed_read(error.kind()))
}
