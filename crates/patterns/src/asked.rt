// What is known of a step before its tests are tried: the who that its event has to have, and what its nevers forbid by their kinds.
ghost use Rattle.std.specs.Prelude.{◌≡◌, ℕ, true, false, List, IfSome, ◌==◌};
ghost use Rattle.timeline.specs.Lists.{any};
ghost use Rattle.timeline.specs.Order.{nth};
ghost use Rattle.patterns.specs.Patterns.{fits_step};
ghost use Rattle.patterns.specs.Codes.{test_of, comparison};
ghost use Rattle.patterns.specs.Kept.{kept_step};
ghost use Rattle.patterns.specs.Asked.{first_of, of_some, of_who, with_who_of, asked_who, asks_same, first_kind, other_kind, free_kind};

use crate::comparing::Comparison;
use crate::fields::{Field, Sign};
use crate::kept::Kept;
use crate::layout::{NEVER_WORDS, TEST_WORDS};
use crate::views::Item;
use timeline::Event;

impl Comparison {
    // Whether it says to what who is equal.
    fn is_of_who(self) -> bool
        ensures { result ≡ of_who (test_of self) }
    {
        self.what == Field::Who && self.sign == Sign::Equal
    }

    // Whether it compares with who of the event of this step.
    fn is_with_who_of(self, earlier: usize) -> bool
        ensures { result ≡ with_who_of earlier (Some (test_of self)) }
    {
        self.step
            .is_some_and(|step| step == earlier as u64 && self.other == 0)
    }
}

impl Kept<'_> {
    // The first test of the step that says to what who is equal.
    fn who_test(self, step: usize) -> Option<Comparison>
        ensures { result ≡ of_some comparison (first_of of_who (kept_step self.entry.words.now step).tests) }
    {
        self.step(step)
            .item()
            .tests()
            .iter()
            .map(|words: &[u64; TEST_WORDS]| Comparison::from(*words))
            .find(|test: &Comparison| test.is_of_who())
    }

    // The who that an event has to have to fit a step, by the first test that says which, given the events of the steps before.
    pub fn who_asked(self, step: usize, earlier: &[Event]) -> Option<u64>
        ensures value { result ≡ asked_who earlier.now (kept_step self.entry.words.now step).tests }
        ensures needed { IfSome result (λ w. (e : Event) → (e.who == w) ≡ false → fits_step earlier.now e (kept_step self.entry.words.now step).kind (kept_step self.entry.words.now step).tests ≡ false) }
    {
        let test = self.who_test(step)?;
        Some(test.other_side(earlier))
    }

    // Whether an event fits a step only if the event of an earlier step has the same who, as far as the first test of who says so.
    pub fn asks_same_who(self, step: usize, earlier: usize) -> bool
        ensures value { result ≡ asks_same earlier (kept_step self.entry.words.now step).tests }
        ensures needed { result ≡ true → (es : List Event) (e : Event) → (e.who == (nth es earlier).who) ≡ false → fits_step es e (kept_step self.entry.words.now step).kind (kept_step self.entry.words.now step).tests ≡ false }
    {
        self.who_test(step)
            .is_some_and(|test| test.is_with_who_of(earlier))
    }

    // The kinds of the step's nevers, of which an event is one if a never forbids it: one kind twice where there is one never, zeros where
    // there is none. Two numbers and no list: the search compares the kind of each event that it passes with both. Zeros and no None: the
    // search asks `has_nevers` first, and where there is no never, no event is forbidden, whatever its kind.
    pub fn never_kinds(self, step: usize) -> (u64, u64)
        ensures value { (result.0 ≡ first_kind (kept_step self.entry.words.now step).never) × (result.1 ≡ other_kind (kept_step self.entry.words.now step).never) }
        ensures needed { (es : List Event) (e : Event) → (e.kind == result.0) ≡ false → (e.kind == result.1) ≡ false → any (λ n. fits_step es e n.kind n.tests) (kept_step self.entry.words.now step).never ≡ false }
    {
        match self.step(step).nevers() {
            [] => (0, 0),
            [only] => {
                let kind = Item { words: only }.kind();
                (kind, kind)
            }
            [first, second, ..] => (Item { words: first }.kind(), Item { words: second }.kind()),
        }
    }

    // The kind of the first never of the step that has no tests, so that each event of the kind is forbidden.
    pub fn free_never(self, step: usize) -> Option<u64>
        ensures value { result ≡ free_kind (kept_step self.entry.words.now step).never }
        ensures needed { IfSome result (λ k. (es : List Event) (e : Event) → (e.kind == k) ≡ true → any (λ n. fits_step es e n.kind n.tests) (kept_step self.entry.words.now step).never ≡ true) }
    {
        let is_free = |words: &&[u64; NEVER_WORDS]| Item { words: *words }.is_free();
        let free = self.step(step).nevers().iter().find(is_free)?;
        Some(Item { words: free }.kind())
    }
}
