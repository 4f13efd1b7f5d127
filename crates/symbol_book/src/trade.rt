//! A report as a book keeps it, and what it does to the consolidated summary and to its participant's own.

use sale_matrix::{Cells, Content, Matrix, cells};
use scratch_fold::Effect;
use tape_types::{Participant, Price, Size};

/// A report at a place: its participant, its price and size, and the cells of its sale condition.
#[derive(Clone, Copy, Debug, PartialEq, Eq)]
pub struct Trade {
    /// The price, in ten-thousandths of a dollar.
    pub price: Price,
    /// The number of shares.
    pub size: Size,
    /// The participant that reported it.
    pub who: Participant,
    /// The cells of its sale condition, by the matrix of its book.
    pub cells: Cells,
}

impl Trade {
    ghost use Rattle.std.specs.Prelude.{◌≡◌, true};
    ghost use Rattle.sale_matrix.specs.Matrix.{is_within};
    ghost use Rattle.symbol_book.specs.Columns.{consolidated_effect_of, own_effect_of, reported_trade};

    /// The trade of a report, with the cells of its sale condition in the matrix.
    #[inline(always)]
    pub(crate) fn new(matrix: Matrix, who: Participant, content: &Content) -> Trade
        requires { is_within matrix content.now.condition ≡ true }
        ensures { result ≡ reported_trade matrix who content.now }
    {
        Trade {
            price: content.price,
            size: content.size,
            who,
            cells: cells(matrix, &content.condition),
        }
    }

    /// What it does to the consolidated summary.
    pub(crate) fn consolidated(&self) -> Effect
        ensures { result ≡ consolidated_effect_of self.now }
    {
        Effect {
            who: self.who,
            price: self.price,
            size: self.size,
            high_low: self.cells.ch,
            last: self.cells.cl,
            volume: self.cells.volume,
        }
    }

    /// What it does to its participant's own summary.
    pub(crate) fn own(&self) -> Effect
        ensures { result ≡ own_effect_of self.now }
    {
        Effect {
            who: self.who,
            price: self.price,
            size: self.size,
            high_low: self.cells.ph,
            last: self.cells.pl,
            volume: self.cells.volume,
        }
    }
}
