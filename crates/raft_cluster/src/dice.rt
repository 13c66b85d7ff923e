//! Numbers at random, from a seed.

ghost use Rattle.std.specs.Prelude.{◌<◌, ◌≤◌};

use rand_core::{Rng, SeedableRng};
use rand_xoshiro::Xoshiro256PlusPlus;

/// Numbers at random: of one seed always the same.
#[derive(Debug, Drop)]
pub struct Dice {
    rng: Xoshiro256PlusPlus,
}

impl Dice {
    /// The numbers of a seed.
    pub fn new(seed: u64) -> Self {
        Dice {
            rng: Xoshiro256PlusPlus::seed_from_u64(seed),
        }
    }

    /// Any number.
    pub fn draw(&mut self) -> u64 {
        self.rng.next_u64()
    }

    /// A number below a bound; 0 if that is 0.
    pub fn below(&mut self, bound: u64) -> u64
        ensures { 0 < bound → result < bound }
    {
        self.rng.next_u64().checked_rem(bound).unwrap_or(0)
    }

    /// One of 1 to a number; 1 if that is 0.
    pub fn up_to(&mut self, count: u64) -> u64
        ensures { 0 < count → result ≤ count }
    {
        self.below(count).saturating_add(1)
    }

    /// True so often in a hundred times.
    pub fn chance(&mut self, percent: u64) -> bool {
        self.below(100) < percent
    }
}
