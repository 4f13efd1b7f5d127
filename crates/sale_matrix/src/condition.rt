//! A sale condition, kept as its four codes, and the cells that it has in a matrix.
ghost use Rattle.std.specs.Prelude.{◌≡◌, true, ◌↔◌, IsSome, IfSome};
ghost use Rattle.sale_matrix.specs.Matrix.{is_within, cells_of, IsCondition};
ghost use Rattle.sale_matrix.specs.declared.matrix.Matrix.TheVariants.{Two};

use crate::matrix::{first_position, fourth_position, second_position, third_position};
use crate::{Cells, Matrix};
use std::marker::Model;

/// A sale condition: four codes, each listed for its position in Matrix Two, which has every code of Matrix One.
///
/// Position 1 is the settlement type and is never blank, position 2 the exemption, position 3 extended hours or sold,
/// position 4 a detail of the market. A blank (a space) in positions 2 to 4 restricts nothing.
#[derive(Clone, Copy, Debug, PartialEq, Eq)]
pub struct Condition {
    codes: [u8; 4],
}

impl Model for Condition {
    ghost use Rattle.std.specs.Prelude.{ℕ, List};

    ghost Value = { List ℕ };

    ghost use Rattle.sale_matrix.specs.Matrix.{IsCondition};

    ghost view = { λ c. c.codes };

    ghost invariant = { λ c. IsCondition c.codes };

    ghost inverse = { λ codes. record { codes = codes } };
}

impl Condition {
    /// The condition of four codes, or `None` if one is not in its position's rows of Matrix Two.
    pub fn try_new(codes: [u8; 4]) -> Option<Self>
        ensures valid { IsSome result ↔ IsCondition codes }
        ensures value { IfSome result (λ c. c ≡ codes) }
    {
        if have_rows(Matrix::Two, codes) {
            Some(Condition { codes })
        } else {
            None
        }
    }

    /// The four codes.
    pub fn value(self) -> [u8; 4]
        ensures value { result ≡ self }
        ensures valid { IsCondition self }
    {
        self.codes
    }

    /// Whether each code is one of the matrix. Every condition is within Matrix Two.
    pub fn within(self, matrix: Matrix) -> bool
        ensures within { result ≡ is_within matrix self }
        ensures widest { is_within Two self ≡ true }
    {
        have_rows(matrix, self.codes)
    }
}

/// Whether each of the four codes has a row in its position of a matrix. It joins no cells.
#[tactic(auto, unfolding(crate::specs::Matrix::is_within))]
fn have_rows(matrix: Matrix, codes: [u8; 4]) -> bool
    ensures { result ≡ is_within matrix codes }
{
    first_position(codes[0]).is_some()
        && second_position(codes[1]).is_some()
        && third_position(codes[2]).is_some()
        && fourth_position(matrix, codes[3]).is_some()
}

/// The joined cells of the four codes in a matrix, or `None` if a code has no row.
#[tactic(auto, unfolding(crate::specs::Matrix::is_within))]
fn joined(matrix: Matrix, codes: [u8; 4]) -> Option<Cells>
    ensures found { IsSome result ↔ (is_within matrix codes ≡ true) }
    ensures cells { IfSome result (λ c. c ≡ cells_of matrix codes) }
{
    let first = first_position(codes[0])?;
    let second = second_position(codes[1])?;
    let third = third_position(codes[2])?;
    let fourth = fourth_position(matrix, codes[3])?;
    Some(first.and(second).and(third).and(fourth))
}

/// What a trade of this condition changes under a matrix: the least cell in each column over its codes, with N < F < S < Y.
pub fn cells(matrix: Matrix, condition: &Condition) -> Cells
    requires within { is_within matrix condition.now ≡ true }
    ensures cells { result ≡ cells_of matrix condition.now }
{
    joined(matrix, condition.codes).unwrap()
}
