// Tests and nevers of a kept pattern, tried of an event.
ghost use Rattle.std.specs.Prelude.{◌≡◌, not};
ghost use Rattle.timeline.specs.Lists.{any, none_of};
ghost use Rattle.timeline.specs.Order.{nth};
ghost use Rattle.patterns.specs.Patterns.{other_side, holds as holds_of, fits_step};
ghost use Rattle.patterns.specs.Codes.{test_of};
ghost use Rattle.patterns.specs.Kept.{kept_step};

use crate::comparing::Comparison;
use crate::fields::Field;
use crate::kept::Kept;
use crate::layout::NEVER_WORDS;
use crate::views::Item;
use timeline::Event;

// The event of an earlier step, one of zeros where there is none.
fn earlier_event(earlier: &[Event], step: u64) -> Event
    ensures { result ≡ nth earlier.now step }
{
    earlier
        .get(step as usize)
        .copied()
        .unwrap_or(Event::NOTHING)
}

impl Comparison {
    // What it compares with, given the events of the steps before.
    pub(crate) fn other_side(self, earlier: &[Event]) -> u64
        ensures { result ≡ other_side earlier.now (test_of self).step self.other }
    {
        match self.step {
            Some(step) => Field::from(self.other).of(earlier_event(earlier, step)),
            None => self.other,
        }
    }

    // Whether it holds of an event.
    pub(crate) fn holds(self, earlier: &[Event], e: Event) -> bool
        ensures { result ≡ holds_of earlier.now e (test_of self) }
    {
        self.sign.holds(self.what.of(e), self.other_side(earlier))
    }
}

impl Kept<'_> {
    // Whether an event fits a step, given the events of the steps before. Where no step can be, as if there were one of kind 0.
    pub fn fits(self, step: usize, earlier: &[Event], e: Event) -> bool
        ensures { result ≡ fits_step earlier.now e (kept_step self.entry.words.now step).kind (kept_step self.entry.words.now step).tests }
    {
        self.step(step).item().fits(earlier, e)
    }

    // Whether a step has nevers.
    pub fn has_nevers(self, step: usize) -> bool
        ensures { result ≡ not (none_of (kept_step self.entry.words.now step).never) }
    {
        !self.step(step).nevers().is_empty()
    }

    // Whether an event is one that a never of the step forbids, given the events of the steps before.
    pub fn hit(self, step: usize, earlier: &[Event], e: Event) -> bool
        ensures { result ≡ any (λ n. fits_step earlier.now e n.kind n.tests) (kept_step self.entry.words.now step).never }
    {
        let forbids = |words: &[u64; NEVER_WORDS]| Item { words }.fits(earlier, e);
        self.step(step).nevers().iter().any(forbids)
    }
}
