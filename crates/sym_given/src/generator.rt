//! Numbers that look random, and are the same in each run of a test.

/// A linear congruential generator of numbers below 2^31, of which the upper 15 bits are used.
#[derive(Drop)]
pub struct Draws {
    state: u32,
}

impl Draws {
    /// The draws of a seed.
    pub fn of(seed: u32) -> Draws {
        Draws { state: seed }
    }

    /// The next number, below 2^15.
    pub fn next(&mut self) -> u32 {
        self.state = self.state.wrapping_mul(1_103_515_245).wrapping_add(12_345) & 0x7fff_ffff;
        self.state / 65_536
    }
}
