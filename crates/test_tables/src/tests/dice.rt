//! Makes numbers that look random and come in the same order in each run.
ghost use Rattle.std.specs.Prelude.{◌<◌};

/// A sequence of numbers that its seed determines.
#[derive(Drop)]
pub(super) struct Dice {
    state: u32,
}

impl Dice {
    pub(super) fn of(seed: u32) -> Self {
        Dice { state: seed }
    }

    /// Returns a number below `sides`.
    pub(super) fn roll(&mut self, sides: u32) -> u32
        requires { 0 < sides }
        ensures { result < sides }
    {
        self.state = self
            .state
            .wrapping_mul(1_664_525)
            .wrapping_add(1_013_904_223);
        (self.state >> 8) % sides
    }
}

/// Returns the letter of the n-th of three participants.
pub(super) fn letter(n: u32) -> u8 {
    match n % 3 {
        0 => b'N',
        1 => b'P',
        _ => b'Q',
    }
}
