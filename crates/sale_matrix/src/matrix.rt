//! The two sale condition matrices: the cells of each code in its position, and the least of several cells.
ghost use Rattle.std.specs.Prelude.{◌≡◌};
ghost use Rattle.std.specs.Option.{option_map};
ghost use Rattle.sale_matrix.specs.Matrix.{first_rows, second_rows, third_rows, fourth_rows, cells_in, cells_of_row, least_cells, weaker};
ghost use Rattle.sale_matrix.specs.declared.matrix.Matrix.TheVariants.{One, Two};

/// The sale condition matrix of a day. Every code of One is also a code of Two.
#[derive(Clone, Copy, Debug, PartialEq, Eq)]
pub enum Matrix {
    /// An odd lot counts for the volume alone.
    One,
    /// An odd lot counts for high and low too, and stopped stock may be sold last or out of sequence.
    Two,
}

/// When a trade becomes the last one, as a last cell of the matrix says. The weakest rule comes first.
#[derive(Clone, Copy, Debug, PartialEq, Eq, PartialOrd, Ord)]
pub enum LastRule {
    /// It never does (`N`).
    Never,
    /// If there is no last yet (`F`).
    FirstOnly,
    /// If there is no last yet, or the present last is of the same participant (`S`).
    SameMarket,
    /// It always does (`Y`).
    Always,
}

/// Which figures a trade changes: the cells of a code, or the least of those of several codes.
#[derive(Clone, Copy, Debug, PartialEq, Eq)]
pub struct Cells {
    /// The consolidated high and low.
    pub ch: bool,
    /// The consolidated last.
    pub cl: LastRule,
    /// The participant's own high and low.
    pub ph: bool,
    /// The participant's own last.
    pub pl: LastRule,
    /// The volume, consolidated and the participant's own.
    pub volume: bool,
}

/// The code restricts nothing, like a blank.
const NEUTRAL: Cells = Cells {
    ch: true,
    cl: LastRule::Always,
    ph: true,
    pl: LastRule::Always,
    volume: true,
};

/// The trade counts for the high, the low and the volume, and is never the last.
const HIGH_LOW_AND_VOLUME: Cells = Cells {
    ch: true,
    cl: LastRule::Never,
    ph: true,
    pl: LastRule::Never,
    volume: true,
};

/// The trade counts for the volume, and its price does not count.
const VOLUME_ALONE: Cells = Cells {
    ch: false,
    cl: LastRule::Never,
    ph: false,
    pl: LastRule::Never,
    volume: true,
};

/// The price may lag behind the market: it is the last only if there is none.
const OUT_OF_SEQUENCE: Cells = Cells {
    ch: true,
    cl: LastRule::FirstOnly,
    ph: true,
    pl: LastRule::FirstOnly,
    volume: true,
};

/// The trade may be reported late: it is the last only after one of its own participant, or if there is none.
const SOLD_LAST: Cells = Cells {
    ch: true,
    cl: LastRule::SameMarket,
    ph: true,
    pl: LastRule::SameMarket,
    volume: true,
};

/// The price counts in the consolidated figures alone, and the size does not count.
const CORRECTED_CLOSE: Cells = Cells {
    ch: true,
    cl: LastRule::Always,
    ph: false,
    pl: LastRule::Never,
    volume: false,
};

/// The price counts in the participant's own figures alone, and the size does not count.
const OFFICIAL_CLOSE: Cells = Cells {
    ch: false,
    cl: LastRule::Never,
    ph: true,
    pl: LastRule::Always,
    volume: false,
};

/// Like the official close, but never the last.
const OFFICIAL_OPEN: Cells = Cells {
    ch: false,
    cl: LastRule::Never,
    ph: true,
    pl: LastRule::Never,
    volume: false,
};

/// The cells of a code in the first position, or `None` if the code is not one of that position's.
#[tactic(auto, unfolding(crate::specs::Matrix::first_rows))]
pub(crate) fn first_position(code: u8) -> Option<Cells>
    ensures { result ≡ option_map cells_of_row (cells_in first_rows code) }
{
    match code {
        b'@' => Some(NEUTRAL),
        b'C' | b'N' | b'R' => Some(VOLUME_ALONE),
        _ => None,
    }
}

/// The cells of a code in the second position, or `None` if the code is not one of that position's.
#[tactic(auto, unfolding(crate::specs::Matrix::second_rows))]
pub(crate) fn second_position(code: u8) -> Option<Cells>
    ensures { result ≡ option_map cells_of_row (cells_in second_rows code) }
{
    match code {
        b' ' | b'F' | b'O' | b'5' | b'6' => Some(NEUTRAL),
        b'4' => Some(OUT_OF_SEQUENCE),
        b'7' => Some(VOLUME_ALONE),
        b'9' => Some(CORRECTED_CLOSE),
        _ => None,
    }
}

/// The cells of a code in the third position, or `None` if the code is not one of that position's.
#[tactic(auto, unfolding(crate::specs::Matrix::third_rows))]
pub(crate) fn third_position(code: u8) -> Option<Cells>
    ensures { result ≡ option_map cells_of_row (cells_in third_rows code) }
{
    match code {
        b' ' => Some(NEUTRAL),
        b'T' | b'U' => Some(VOLUME_ALONE),
        b'L' => Some(SOLD_LAST),
        b'Z' => Some(OUT_OF_SEQUENCE),
        _ => None,
    }
}

/// The cells of a code in the fourth position of a matrix, or `None` if the code is not one of that position's.
pub(crate) fn fourth_position(matrix: Matrix, code: u8) -> Option<Cells>
    ensures { result ≡ option_map cells_of_row (cells_in (fourth_rows matrix) code) }
{
    match matrix {
        Matrix::One => fourth_of_one(code),
        Matrix::Two => fourth_of_two(code),
    }
}

/// The fourth position of Matrix One.
#[tactic(auto, unfolding(crate::specs::Matrix::fourth_rows))]
fn fourth_of_one(code: u8) -> Option<Cells>
    ensures { result ≡ option_map cells_of_row (cells_in (fourth_rows One) code) }
{
    match code {
        b' ' | b'A' | b'B' | b'D' | b'S' | b'X' | b'Y' | b'1' => Some(NEUTRAL),
        b'H' | b'I' | b'V' | b'W' => Some(VOLUME_ALONE),
        b'P' | b'G' => Some(OUT_OF_SEQUENCE),
        b'M' => Some(OFFICIAL_CLOSE),
        b'Q' => Some(OFFICIAL_OPEN),
        _ => None,
    }
}

/// The fourth position of Matrix Two: an odd lot has other cells than in Matrix One, and stopped stock has two more codes.
#[tactic(auto, unfolding(crate::specs::Matrix::fourth_rows))]
fn fourth_of_two(code: u8) -> Option<Cells>
    ensures { result ≡ option_map cells_of_row (cells_in (fourth_rows Two) code) }
{
    match code {
        b'I' => Some(HIGH_LOW_AND_VOLUME),
        b'2' => Some(SOLD_LAST),
        b'3' => Some(OUT_OF_SEQUENCE),
        _ => fourth_of_one(code),
    }
}

impl LastRule {
    /// The weaker of two rules.
    fn weaker(self, other: LastRule) -> LastRule
        ensures { result ≡ weaker self other }
    {
        self.min(other)
    }
}

impl Cells {
    /// The lesser cell in each column.
    pub(crate) fn and(self, other: Cells) -> Cells
        ensures { result ≡ least_cells self other }
    {
        Cells {
            ch: self.ch && other.ch,
            cl: self.cl.weaker(other.cl),
            ph: self.ph && other.ph,
            pl: self.pl.weaker(other.pl),
            volume: self.volume && other.volume,
        }
    }
}
