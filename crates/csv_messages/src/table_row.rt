//! The fields of a row.

/// The fields of a row, by the names of their columns.
#[derive(Clone, Copy)]
pub struct TableRow<'a> {
    /// A word or a letter.
    pub kind: &'a [u8],
    /// One letter, `A` to `Z`.
    pub participant: &'a [u8],
    /// 1 or above.
    pub number: &'a [u8],
    /// A number, or nothing for 0.
    pub moment: &'a [u8],
    /// One to eight of `A` to `Z`, `0` to `9` and the full stop.
    pub symbol: &'a [u8],
    /// A message number; nothing in a report.
    pub target: &'a [u8],
    /// Dollars with at most four decimals; nothing in a cancel and a reinstatement.
    pub price: &'a [u8],
    /// A number of shares; nothing if the price is nothing.
    pub size: &'a [u8],
    /// Four codes with `_` for a blank; nothing if the price is nothing.
    pub condition: &'a [u8],
}
