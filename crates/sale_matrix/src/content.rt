//! The content of a report: price, size and sale condition.

use crate::Condition;
use tape_types::{Price, Size};

/// The price, size and sale condition of a trade.
#[derive(Clone, Copy, Debug, PartialEq, Eq)]
pub struct Content {
    /// The price, in ten-thousandths of a dollar.
    pub price: Price,
    /// The number of shares.
    pub size: Size,
    /// The sale condition, which says what the trade changes in a summary.
    pub condition: Condition,
}
