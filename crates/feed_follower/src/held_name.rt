//! The name of the tape that a follower is to hold, by which contracts know it behind a lock.
ghost use Rattle.std.specs.Prelude.{ℕ, List, Option, None, []};
ghost use Rattle.tape_types.specs.Names.{Names};
ghost use Rattle.sale_matrix.specs.declared.matrix.Matrix.{Matrix};
ghost use Rattle.sale_matrix.specs.declared.matrix.Matrix.TheVariants.{One};

use std::marker::Brand;

/// The listing, the matrix, the limit and the session of the tape that a follower is to hold, and the bytes of its sink before
/// that, which are known behind its lock too. A function over it is called with `Brand`, once for each follower.
pub(crate) trait HeldName {
    /// The symbols and participants.
    ghost listing: { Names };
    /// The sale condition matrix.
    ghost matrix: { Matrix };
    /// The most entries of the tape.
    ghost limit: { ℕ };
    /// The session under which the tape is sent.
    ghost session: { ℕ };
    /// What the sink has before it is given anything.
    ghost before: { Option (List ℕ) };
}

impl HeldName for Brand {
    ghost listing = { record { symbols = []; participants = [] } };

    ghost matrix = { One };

    ghost limit = { 0 };

    ghost session = { 0 };

    ghost before = { None };
}
