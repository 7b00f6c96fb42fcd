// The parts of a kept pattern, each a view of its words, which are read as they stand: a count that is too large is the most there can be.
// `let words = self.words;` stands in front wherever a part is taken: the check takes none of what a field refers to, as `self.words[1..]`.
ghost use Rattle.std.specs.Prelude.{◌≡◌, ◌+◌, ◌*◌, ◌<◌, ◌≤◌, length, take, drop, slice_index};
ghost use Rattle.timeline.specs.Lists.{each, run, none_of};
ghost use Rattle.patterns.specs.Patterns.{fits_step};
ghost use Rattle.patterns.specs.Kept.{at_most, kept_test, kept_tests, kept_never, kept_nevers};

use crate::comparing::Comparison;
use crate::layout::{
    MOST_NEVERS, MOST_TESTS, NEVER_WORDS, NEVERS_AT, STEP_WORDS, TEST_WORDS, TESTS_AT,
};
use timeline::Event;

// A count, but no more than the most there can be.
pub fn at_most(most: usize, count: u64) -> usize
    ensures { result ≡ at_most most count }
{
    count.min(most as u64) as usize
}

// What stands behind a count, each in so many words.
pub(crate) fn counted<const N: usize>(words: &[u64], most: usize) -> &[[u64; N]]
    requires some { 0 < N }
    requires room { 1 + N * most ≤ length words.now }
    ensures { result.now ≡ each (λ i. take N (drop (1 + N * i) words.now)) (run 0 (at_most most (slice_index words.now 0))) }
{
    let (all, _) = words[1..].as_chunks();
    &all[..at_most(most, words[0])]
}

// A never, or the front of a step: a kind and tests.
#[derive(Clone, Copy)]
pub(crate) struct Item<'a> {
    pub words: &'a [u64; NEVER_WORDS],
}

impl<'a> Item<'a> {
    pub fn kind(self) -> u64
        ensures { result ≡ (kept_never self.entry.words.now 0).kind }
    {
        self.words[0]
    }

    pub fn tests(self) -> &'a [[u64; TEST_WORDS]]
        ensures { each (λ t. kept_test t 0) result.now ≡ (kept_never self.entry.words.now 0).tests }
    {
        let words = self.words;
        counted(&words[TESTS_AT..], MOST_TESTS)
    }

    // Whether it has no tests.
    pub fn is_free(self) -> bool
        ensures { result ≡ none_of (kept_never self.entry.words.now 0).tests }
    {
        self.tests().is_empty()
    }

    // Whether an event is of the kind and passes the tests, given the events of the steps before.
    pub fn fits(self, earlier: &[Event], e: Event) -> bool
        ensures { result ≡ fits_step earlier.now e (kept_never self.entry.words.now 0).kind (kept_never self.entry.words.now 0).tests }
    {
        let holds = |words: &[u64; TEST_WORDS]| Comparison::from(*words).holds(earlier, e);
        e.kind == self.kind() && self.tests().iter().all(holds)
    }
}

// A step: a kind and tests, and nevers.
#[derive(Clone, Copy)]
pub(crate) struct StepView<'a> {
    pub words: &'a [u64; STEP_WORDS],
}

impl<'a> StepView<'a> {
    pub fn item(self) -> Item<'a>
        ensures { kept_never result.words.now 0 ≡ kept_never self.entry.words.now 0 }
    {
        let words = self.words;
        let words = words.first_chunk().unwrap();
        Item { words }
    }

    pub fn nevers(self) -> &'a [[u64; NEVER_WORDS]]
        ensures { each (λ n. kept_never n 0) result.now ≡ kept_nevers self.entry.words.now 22 }
    {
        let words = self.words;
        counted(&words[NEVERS_AT..], MOST_NEVERS)
    }
}
