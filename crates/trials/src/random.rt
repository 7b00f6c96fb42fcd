// Numbers that look random, the same ones for the same seed: the words of SplitMix64, and what is drawn of them.
ghost use Rattle.std.specs.Prelude.{◌≡◌, ℕ, ◌<◌, length, slice_index, nat_lt};
ghost use Rattle.trials.specs.Draws.{drawn, drawn_below, state_of_case, word_of_state};

use rand_core::SeedableRng;
use rand_core::utils::NextWord;
use rand_xoshiro::SplitMix64;
use std::marker::Model;

// What the state grows by from one word to the next.
const STRIDE: u64 = 0x9e37_79b9_7f4a_7c15;

// The word that the generator gives as its state comes to be a number.
fn word_of(state: u64) -> u64
    ensures { result ≡ word_of_state state }
{
    SplitMix64::seed_from_u64(state.wrapping_sub(STRIDE)).next_word()
}

#[derive(Debug, Drop)]
pub struct Random {
    words: SplitMix64,
}

impl Model for Random {
    ghost Value = { ℕ };

    ghost view = { λ r. r.words };
}

impl Random {
    pub fn new(seed: u64) -> Random
        ensures { result ≡ seed }
    {
        Random {
            words: SplitMix64::seed_from_u64(seed),
        }
    }

    // The numbers of a case, which are its own whichever cases come before it.
    pub fn of_case(seed: u64, case: u64) -> Random
        ensures { result ≡ state_of_case seed case }
    {
        Random::new(word_of(seed) ^ word_of(case.wrapping_mul(STRIDE)))
    }

    pub fn any(&mut self) -> u64
        ensures { (result, self.new) ≡ drawn self.old }
    {
        self.words.next_word()
    }

    // A number below a bound; 0 where the bound is 0.
    pub fn below(&mut self, bound: u64) -> u64
        ensures value { (result, self.new) ≡ drawn_below bound self.old }
        ensures bound { 0 < bound → result < bound }
    {
        if bound == 0 {
            return 0;
        }
        self.any() % bound
    }

    // So many times out of a hundred.
    pub fn percent(&mut self, chance: u64) -> bool
        ensures value { result ≡ nat_lt (drawn_below 100 self.old).0 chance }
        ensures after { self.new ≡ (drawn_below 100 self.old).1 }
    {
        self.below(100) < chance
    }

    // One of some numbers; 0 of none.
    pub fn one_of(&mut self, some: &[u64]) -> u64
        ensures value { result ≡ slice_index some.now (drawn_below (length some.now) self.old).0 }
        ensures after { self.new ≡ (drawn_below (length some.now) self.old).1 }
    {
        let i = self.below(some.len() as u64) as usize;
        some.get(i).copied().unwrap_or(0)
    }
}
