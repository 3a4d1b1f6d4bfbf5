//! Numbers that seem to be thrown, and are the same in each run.
ghost use Rattle.std.specs.Prelude.{◌<◌};

/// A linear congruential generator, with the constants of Knuth's MMIX.
#[derive(Drop)]
pub struct Dice(u64);

impl Dice {
    /// One that begins with this number.
    pub fn new(seed: u64) -> Dice {
        Dice(seed)
    }

    /// The next number, below this one.
    pub fn below(&mut self, sides: u64) -> u64
        requires { 0 < sides }
        ensures { result < sides }
    {
        self.0 = self
            .0
            .wrapping_mul(6_364_136_223_846_793_005)
            .wrapping_add(1_442_695_040_888_963_407);
        (self.0 >> 33) % sides
    }
}
