//! Adds up a symbol's reports by rising place, and keeps its consolidated summary and each participant's own.
ghost use Rattle.std.specs.Prelude.{◌≡◌, ℕ, ◌+◌, ◌-◌, ◌++◌, ◌∷◌, List, [], All, IfOk, length};
ghost use Rattle.tape_core.specs.Ending.{AreFigures, AreOfAtMost};
ghost use Rattle.tape_types.specs.Ranges.{TAPE_MOST};
ghost use Rattle.sale_matrix.specs.Matrix.{cells_of};
ghost use Rattle.sale_matrix.specs.declared.matrix.Matrix.{Matrix as SaleMatrix};
ghost use Rattle.tape_core.specs.Standing.{StandingReport};

use sale_matrix::{Cells, Content};
use scratch_fold::{Effect, Mark, Summary};
use std::alloc::{AllocError, Global};
use tape_types::{PARTICIPANTS_MOST, Participant, SIZE_MOST, TapeNumber};

/// The summaries of a symbol's reports: the consolidated one, and each participant's own.
#[derive(Clone, Copy, Debug, PartialEq, Eq)]
pub struct SymbolFigures {
    /// The consolidated summary.
    pub all: Summary,
    /// The participants' own summaries by letter, from `A`.
    pub own: [Summary; PARTICIPANTS_MOST],
}

impl SymbolFigures {
    /// The figures of no report.
    pub fn empty() -> SymbolFigures
        ensures figures { (matrix : SaleMatrix) → AreFigures matrix [] result }
        ensures none { AreOfAtMost 0 result }
    {
        SymbolFigures {
            all: Summary::empty(),
            own: [Summary::empty(); PARTICIPANTS_MOST],
        }
    }

    /// Counts one more report, whose place is after those of all before it.
    pub fn count(&mut self, place: TapeNumber, who: Participant, content: &Content, cells: Cells)
        requires few { AreOfAtMost (TAPE_MOST - 1) self.old }
        ensures figures { (matrix : SaleMatrix) (reports : List StandingReport) → cells ≡ cells_of matrix content.now.condition
            → AreFigures matrix reports self.old
            → AreFigures matrix (reports ++ record { place = place; who = who; content = content.now } ∷ []) self.new }
        ensures few { (most : ℕ) → AreOfAtMost most self.old → AreOfAtMost (most + 1) self.new }
    {
        let consolidated = Effect {
            price: content.price,
            size: content.size,
            who,
            high_low: cells.ch,
            last: cells.cl,
            volume: cells.volume,
        };
        let own = Effect {
            high_low: cells.ph,
            last: cells.pl,
            ..consolidated
        };
        prove!(content.size.value() <= SIZE_MOST);
        self.all.add(place, &consolidated);
        let row = who.row_index();
        let mut mine = self.own[row];
        mine.add(place, &own);
        self.own[row] = mine;
    }
}

/// Returns the figures of no report for each of `count` symbols.
pub fn empty_table(alloc: Global, count: usize) -> Result<Vec<SymbolFigures>, AllocError>
    ensures figures { (matrix : SaleMatrix) → IfOk result (λ table. All (AreFigures matrix []) table.items) }
    ensures none { IfOk result (λ table. All (AreOfAtMost 0) table.items) }
    ensures count { IfOk result (λ table. length table.items ≡ count) }
{
    // For the proof alone: the check knows the types of a function's own values and of the values in them.
    let _ = high_of(Summary::empty());
    let mut table = Vec::new(alloc);
    for _ in 0..count {
        table.push(SymbolFigures::empty())?;
    }
    Ok(table)
}

/// The high of a summary.
fn high_of(summary: Summary) -> Option<Mark>
    ensures { result ≡ summary.high }
{
    summary.high
}
