//! Pseudorandom numbers from a fixed seed.
ghost use Rattle.std.specs.Prelude.{◌<◌};

/// The generator SplitMix64 (Steele, Lea and Flood 2014).
#[derive(Drop)]
pub struct Generator(u64);

impl Generator {
    /// Makes the generator with this seed.
    pub fn new(seed: u64) -> Self {
        Generator(seed)
    }

    fn word(&mut self) -> u64 {
        self.0 = self.0.wrapping_add(0x9E37_79B9_7F4A_7C15);
        let first = (self.0 ^ (self.0 >> 30)).wrapping_mul(0xBF58_476D_1CE4_E5B9);
        let second = (first ^ (first >> 27)).wrapping_mul(0x94D0_49BB_1331_11EB);
        second ^ (second >> 31)
    }

    /// Returns a number below the bound.
    pub fn below(&mut self, bound: usize) -> usize
        requires { 0 < bound }
        ensures { result < bound }
    {
        (self.word() % bound as u64) as usize
    }
}
