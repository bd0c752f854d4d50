//! The numbers that a seed draws: those of the generator PCG32, which are the same everywhere.
ghost use Rattle.std.specs.Prelude.{◌≡◌};
ghost use Rattle.rand_core.specs.Stream.{next_u32};
ghost use Rattle.ca_world_script.specs.Drawn.{numbers, seeded};

use rand_core::{Rng, SeedableRng};
use rand_pcg::Pcg32;

/// How many numbers are drawn after each event of a script that was done.
pub const DRAWS: u32 = 16;

/// The numbers that a seed draws, one after another.
#[derive(Drop)]
pub struct Drawing {
    generator: Pcg32,
}

impl Drawing {
    /// The numbers of this seed, from the first.
    pub fn new(seed: u64) -> Drawing
        ensures { result.generator ≡ seeded seed }
    {
        Drawing {
            generator: Pcg32::seed_from_u64(seed),
        }
    }

    /// The next number.
    pub fn draw(&mut self) -> u32
        ensures { (result, numbers self.new.generator) ≡ next_u32 (numbers self.old.generator) }
    {
        self.generator.next_u32()
    }
}
