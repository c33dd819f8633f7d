ghost use Rattle.std.specs.Prelude.{◌≡◌, ◌<◌};
ghost use Rattle.generated_load.specs.Draws.{draw, seeded};

use rand_core::SeedableRng;
use rand_core::utils::NextWord;
use rand_pcg::Pcg32;
use std::marker::Model;

/// Numbers drawn from a seed, by the generator PCG (XSH RR 64/32).
#[derive(Drop)]
pub struct Draws {
    rng: Pcg32,
}

impl Model for Draws {
    ghost use Rattle.rand_pcg.specs.Lcg.{Lcg};

    ghost Value = { Lcg };

    ghost view = { λ s. s.rng };
}

impl Draws {
    #[tactic(auto, unfolding(crate::specs::Draws::seeded))]
    pub fn new(seed: u64) -> Draws
        ensures { result ≡ seeded seed }
    {
        Draws {
            rng: Pcg32::seed_from_u64(seed),
        }
    }

    /// Draws the next word of 32 bits, and returns it modulo `count`.
    #[tactic(auto, unfolding(crate::specs::Draws::draw))]
    pub fn draw(&mut self, count: u32) -> u32
        requires { 0 < count }
        ensures drawn { (result, self.new) ≡ draw count self.old }
        ensures below { result < count }
    {
        self.rng.next_word() % count
    }
}
