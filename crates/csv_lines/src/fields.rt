//! Fields of a record.
ghost use Rattle.std.specs.Prelude.{◌≡◌, ◌++◌, ◌∷◌, [], OnOk, decimal};
ghost use Rattle.csv.specs.Records.{fields_of, partial_of};

use csv::ByteRecord;
use itoa::Buffer;
use std::alloc::AllocError;

/// Adds a number in decimal as the next field of a record. `AllocError` if memory runs out.
pub fn push_number(line: &mut ByteRecord, number: u64) -> Result<(), AllocError>
    requires { partial_of line.old ≡ [] }
    ensures fields { OnOk result (fields_of line.new ≡ fields_of line.old ++ decimal number ∷ []) }
    ensures partial { OnOk result (partial_of line.new ≡ []) }
{
    let mut digits = Buffer::new();
    line.push_field(digits.format(number).as_bytes())
}
