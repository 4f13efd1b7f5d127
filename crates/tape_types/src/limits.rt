//! The greatest values, each stated once in the code and once in the definitions; the prover checks that the two agree.

/// The greatest price, in ten-thousandths of a dollar.
pub const PRICE_MOST: u64 = 999_999_999_999;

/// The greatest size, in shares.
pub const SIZE_MOST: u32 = 99_999_999;

/// The greatest tape number, which is how many entries a tape has at most.
pub const TAPE_MOST: u32 = 16_777_216;

/// How many symbols a listing has at most.
pub const SYMBOLS_MOST: usize = 4_096;

/// How many participants a listing has at most, one for each capital letter.
pub const PARTICIPANTS_MOST: usize = 26;
