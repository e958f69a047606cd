//! The words of a seed, one after another.

ghost use Rattle.std.specs.Prelude.{◌≡◌, ℕ, ◌+◌, ◌<◌, ◌%◌};
ghost use Rattle.cpn_draw.specs.Draw.{generator, word};

use rand_core::SeedableRng;
use rand_core::utils::NextWord;
use rand_pcg::Pcg64;
use std::marker::Model;

/// The words of a seed that are to come: those of the generator Pcg64, made of the seed by `seed_from_u64`.
///
/// Where n elements are ready, claim number k of a run, from 0, takes the one at position word k modulo n. A clause sees a
/// draw as the state of its generator, which is `generator seed k` before word k.
/// Source: own choice.
#[derive(Drop)]
pub struct Draw {
    generator: Pcg64,
}

impl Model for Draw {
    ghost use Rattle.rand_pcg.specs.Lcg.{Lcg};

    ghost Value = { Lcg };

    ghost view = { λ d. d.generator };
}

impl Draw {
    /// The draw of a seed, which is any number from 0 to 2^64 - 1, before its word 0. It takes no memory.
    ///
    /// Source: own choice.
    #[tactic(auto, unfolding(crate::specs::Draw::generator))]
    pub fn new(seed: u64) -> Draw
        ensures { result ≡ generator seed 0 }
    {
        Draw {
            generator: Pcg64::seed_from_u64(seed),
        }
    }

    /// The next word modulo `n`, a number from 0 to n - 1. The word is from 0 to 2^64 - 1, and each pick takes just one.
    ///
    /// Source: own choice. Where n does not divide 2^64, each of the lower numbers stands for one word more than each of
    /// the higher ones.
    #[tactic(auto, unfolding(crate::specs::Draw::generator, crate::specs::Draw::word))]
    pub fn pick(&mut self, n: u64) -> u64
        requires { 0 < n }
        ensures drawn { (seed k : ℕ) → self.old ≡ generator seed k → result ≡ word seed k % n }
        ensures next { (seed k : ℕ) → self.old ≡ generator seed k → self.new ≡ generator seed (k + 1) }
        ensures within { result < n }
    {
        self.generator.next_word() % n
    }
}
