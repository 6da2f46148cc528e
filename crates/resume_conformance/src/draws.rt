//! Numbers that a run draws.

/// Numbers that look as if drawn, and are the same for the same run (Marsaglia, *Xorshift RNGs*, section 3.1).
#[derive(Drop)]
pub(crate) struct Draws {
    state: u64,
}

impl Draws {
    /// The numbers of this run.
    pub(crate) fn new(run: u64) -> Draws {
        Draws {
            state: run.wrapping_mul(0x9E37_79B9_7F4A_7C15) | 1,
        }
    }

    /// The next number, which is below this one; 0 where none is.
    pub(crate) fn below(&mut self, limit: u64) -> u64 {
        self.state ^= self.state << 13;
        self.state ^= self.state >> 7;
        self.state ^= self.state << 17;
        (self.state >> 8).checked_rem(limit).unwrap_or(0)
    }
}
