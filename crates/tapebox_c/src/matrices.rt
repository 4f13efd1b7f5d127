//! The sale condition matrices for another language.
ghost use Rattle.std.specs.Prelude.{◌≡◌};
ghost use Rattle.tapebox_c.specs.Matrices.{as_condition, cells_row, cells_told, rule_letter, yes_letter};
ghost use Rattle.tapebox_c.specs.Opening.{matrix_numbered};

use crate::fault::CallFault;
use crate::opening::matrix_numbered;
use crate::rows::CellsRow;
use reports::MessageFault;
use sale_matrix::{Cells, Condition, LastRule, cells};
use tape_core::Refusal;

/// Writes the cells of the sale condition that the four bytes are, by a matrix, 1 or 2.
#[unsafe(no_mangle)]
pub extern "C" fn tapebox_cells(matrix: u32, condition: &[u8], row: &mut CellsRow) -> u32
    ensures { (result, row.new) ≡ cells_told (matrix_numbered matrix) (as_condition condition.now) row.old }
{
    let Some(matrix) = matrix_numbered(matrix) else {
        return CallFault::BadMatrix.code();
    };
    let Some(condition) = condition_of(condition) else {
        return CallFault::NoMessage(MessageFault::BadCondition).code();
    };
    if !condition.within(matrix) {
        return CallFault::Refused(Refusal::NotInMatrix).code();
    }
    *row = cells_row(cells(matrix, &condition));
    0
}

/// The sale condition that the bytes are.
#[tactic(auto, using(reports::specs::Lemmas::Texts::condition_decided))]
fn condition_of(bytes: &[u8]) -> Option<Condition>
    ensures { result ≡ as_condition bytes.now }
{
    let Ok(codes) = <[u8; 4]>::try_from(bytes) else {
        return None;
    };
    Condition::try_new(codes)
}

/// Cells as a row.
fn cells_row(cells: Cells) -> CellsRow
    ensures { result ≡ cells_row cells }
{
    CellsRow {
        high_low: yes_letter(cells.ch),
        last: rule_letter(cells.cl),
        own_high_low: yes_letter(cells.ph),
        own_last: rule_letter(cells.pl),
        volume: yes_letter(cells.volume),
    }
}

/// The letter of a cell that is yes or no.
fn yes_letter(is_yes: bool) -> u8
    ensures { result ≡ yes_letter is_yes }
{
    if is_yes { b'Y' } else { b'N' }
}

/// The letter of a rule for the last.
fn rule_letter(rule: LastRule) -> u8
    ensures { result ≡ rule_letter rule }
{
    match rule {
        LastRule::Always => b'Y',
        LastRule::SameMarket => b'S',
        LastRule::FirstOnly => b'F',
        LastRule::Never => b'N',
    }
}
