// The words of a call: PCG XSL RR 128/64, with the seed as its state and the call's number as its stream.

ghost use Rattle.std.specs.Prelude.{◌≡◌};
ghost use Rattle.rand_pcg.specs.Lcg.{Lcg};
ghost use Rattle.svr_draw.specs.Words as spec;

use rand_core::utils::NextWord;
use rand_pcg::Lcg128Xsl64;
use std::marker::Model;

/// The stream of words of a call of `randomize`, which contracts see as the generator before its next word.
#[derive(Drop)]
pub struct Draws {
    generator: Lcg128Xsl64,
}

impl Model for Draws {
    ghost Value = { Lcg };

    ghost view = { λ d. d.generator };
}

impl Draws {
    /// The words of a call, which is with_words from 1, under a seed.
    #[tactic(auto, unfolding(crate::specs::Words::generator))]
    pub fn new(seed: u64, call: u64) -> Draws
        ensures { result ≡ spec.generator seed call }
    {
        Draws {
            generator: Lcg128Xsl64::new(u128::from(seed), u128::from(call)),
        }
    }

    /// The next word.
    pub fn word(&mut self) -> u64
        ensures word { result ≡ spec.word_of self.old 0 }
        ensures left { self.new ≡ spec.after 1 self.old }
    {
        self.generator.next_word()
    }
}
