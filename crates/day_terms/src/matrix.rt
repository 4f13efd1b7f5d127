//! Matrices by their numbers.
ghost use Rattle.std.specs.Prelude.{◌≡◌, IfSome};
ghost use Rattle.day_terms.specs.Values.{IsMatrix, matrix_named};

use sale_matrix::Matrix;

/// Returns the matrix of a number, `1` or `2` without a zero in front, or `None` if the text is neither.
pub fn matrix_named(text: &[u8]) -> Option<Matrix>
    ensures named { result ≡ matrix_named text.now }
    ensures number { IfSome result (IsMatrix text.now) }
{
    match text {
        b"1" => Some(Matrix::One),
        b"2" => Some(Matrix::Two),
        _ => None,
    }
}
