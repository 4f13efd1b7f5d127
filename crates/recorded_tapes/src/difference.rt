//! Finds the first place at which a recorded tape differs from the one that it should be, and the fields there.
ghost use Rattle.std.specs.Prelude.{◌≡◌, ◌≢◌, ◌≤◌, ◌++◌, IfOk, drop, length, take};
ghost use Rattle.recorded_tapes.specs.Differences.{AreApart, field_over};

use crate::parts::{front, rest};
use crate::place::{TextPlace, rest_of_field};
use csv_messages::FaultText;
use std::alloc::{AllocError, Global};

/// The first place at which a recorded tape differs from the one that `tape` writes of its messages.
#[derive(Clone, Copy, Debug, PartialEq, Eq)]
pub struct Difference {
    /// The number of the line, from 1.
    pub line: u64,
    /// How many columns of the line are before this one.
    pub column: u64,
    /// The text in the column.
    pub stands: FaultText,
    /// The text that should be there. It is the same if the line ends at another place than it should.
    pub wanted: FaultText,
}

/// How many bytes two different texts have in common at their front.
fn common_front(one: &[u8], other: &[u8]) -> usize
    ensures within { (result ≤ length one.now) × (result ≤ length other.now) }
    ensures same { take result one.now ≡ take result other.now }
    ensures apart { one.now ≢ other.now → AreApart (drop result one.now) (drop result other.now) }
{
    let shorter = one.len().min(other.len());
    for place in 0..shorter {
        if one[place] != other[place] {
            return place;
        }
    }
    shorter
}

/// The front of a field that begins in one text and goes on in another.
fn field_over(alloc: Global, front: &[u8], behind: &[u8]) -> Result<FaultText, AllocError>
    ensures { IfOk result (λ text. text ≡ field_over front.now behind.now) }
{
    let mut field = Vec::new(alloc);
    let place = TextPlace::behind(front);
    field.extend_from_slice(rest(front, place.field))?;
    field.extend_from_slice(rest_of_field(behind))?;
    Ok(FaultText::new(&field))
}

impl Difference {
    ghost use Rattle.recorded_tapes.specs.Differences.{IsDifference};

    /// Returns the first difference of a recorded text from another one, whose first `same` bytes are the same, with `behind`
    /// after them.
    pub fn behind(
        alloc: Global,
        recorded: &[u8],
        same: usize,
        behind: &[u8],
    ) -> Result<Difference, AllocError>
        requires within { same ≤ length recorded.now }
        requires other { drop same recorded.now ≢ behind.now }
        ensures { IfOk result (IsDifference recorded.now (take same recorded.now ++ behind.now)) }
    {
        let left = rest(recorded, same);
        let more = common_front(left, behind);
        let common = front(recorded, same + more);
        let place = TextPlace::behind(common);
        Ok(Difference {
            line: place.line,
            column: place.column,
            stands: field_over(alloc, common, rest(left, more))?,
            wanted: field_over(alloc, common, rest(behind, more))?,
        })
    }
}
