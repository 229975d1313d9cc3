//! The random numbers.
ghost use Rattle.std.specs.Prelude.{◌≡◌, ◌/◌, ◌^◌};
ghost use Rattle.load_gen.specs.Generated.{next_state};

/// A linear congruence modulo 2^64.
#[derive(Drop)]
pub struct Generator {
    pub state: u64,
}

impl Generator {
    /// The generator of a seed, before its first draw.
    pub fn new(seed: u64) -> Generator
        ensures { result.state ≡ seed }
    {
        Generator { state: seed }
    }

    /// The next draw: the upper 31 bits of the next state.
    pub fn draw(&mut self) -> u32
        ensures state { self.new.state ≡ next_state self.old.state }
        ensures drawn { result ≡ next_state self.old.state / 2 ^ 33 }
    {
        let product = self.state.wrapping_mul(6_364_136_223_846_793_005);
        self.state = product.wrapping_add(1_442_695_040_888_963_407);
        (self.state >> 33) as u32
    }
}
