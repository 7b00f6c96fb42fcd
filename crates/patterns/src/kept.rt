// A view of the 405 words in which a pattern is kept, what stands in front, and its steps.
ghost use Rattle.std.specs.Prelude.{◌≡◌, length, is_some, IfSome, ◌==◌};
ghost use Rattle.patterns.specs.Kept.{step_in, kept_step, kept_count, kept_pattern};

use crate::layout::{
    COUNT_AT, LATE_AT, MOST_STEPS, PATTERN_WORDS, STEP_WORDS, STEPS_AT, WITHIN_AT,
};
use crate::views::{StepView, at_most};

// Where no step can be, all words are read as 0: the definitions say so of words behind an end, and a search asks for no such step.
const NO_STEP: [u64; STEP_WORDS] = [0; STEP_WORDS];

// Whatever the words are, they are a pattern: counts that are too large are read as the most there can be.
#[derive(Clone, Copy)]
pub struct Kept<'a> {
    pub words: &'a [u64; PATTERN_WORDS],
}

impl<'a> Kept<'a> {
    // The words as a pattern; None where they are not 405.
    pub fn over(words: &'a [u64]) -> Option<Kept<'a>>
        ensures test { is_some result ≡ (length words.now == 405) }
        ensures made { IfSome result (λ k. k.words.now ≡ words.now) }
    {
        let words = words.as_array()?;
        Some(Kept { words })
    }

    pub fn within(self) -> u64
        ensures { result ≡ (kept_pattern self.entry.words.now).within }
    {
        self.words[WITHIN_AT]
    }

    pub fn late(self) -> u64
        ensures { result ≡ (kept_pattern self.entry.words.now).late }
    {
        self.words[LATE_AT]
    }

    // How many steps: six at most.
    pub fn steps(self) -> usize
        ensures { result ≡ kept_count self.entry.words.now }
    {
        at_most(MOST_STEPS, self.words[COUNT_AT])
    }

    // A step; one of zeros where no step can be.
    pub(crate) fn step(self, step: usize) -> StepView<'a>
        ensures { step_in result.words.now ≡ kept_step self.entry.words.now step }
    {
        // Named first: the check takes no part of what a field refers to.
        let words = self.words;
        let (steps, _) = words[STEPS_AT..].as_chunks();
        let words = steps.get(step).unwrap_or(&NO_STEP);
        StepView { words }
    }

    // The kind of a step, and 0 where no step can be: no Option, since the definitions read a step wherever one is asked for.
    pub fn kind_of(self, step: usize) -> u64
        ensures { result ≡ (kept_step self.entry.words.now step).kind }
    {
        self.step(step).item().kind()
    }
}
