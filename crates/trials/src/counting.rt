// Counts, which stay at the greatest number that there is once they have come to it.
ghost use Rattle.std.specs.Prelude.{◌≡◌, ◌+◌, ◌-◌, ◌^◌, Some, min, slice_index, slice_set};
ghost use Rattle.trials.specs.Written.{after_spaces};

use std::fmt;

pub fn add(count: &mut u64, more: u64)
    ensures { count.new ≡ min (count.old + more) (2 ^ 64 - 1) }
{
    *count = count.saturating_add(more);
}

// How many there are of each of some kinds, by the kinds' places.
#[derive(Clone, Copy, Debug, PartialEq, Eq, Default)]
pub struct Counts<const N: usize> {
    pub counts: [u64; N],
}

impl<const N: usize> Counts<N> {
    // Nothing is counted at a place that there isn't.
    pub fn add(&mut self, place: usize, more: u64)
        ensures { self.new.counts ≡ slice_set self.old.counts place (min (slice_index self.old.counts place + more) (2 ^ 64 - 1)) }
    {
        if place < N {
            self.counts[place] = self.counts[place].saturating_add(more);
        }
    }
}

// Each count, with a space in front.
impl<const N: usize> fmt::Display for Counts<N> {
    ghost output = { λ c. Some (after_spaces c.counts) };

    fn fmt<W: fmt::Write>(&self, f: &mut fmt::Formatter<W>) -> fmt::Result {
        for count in self.counts.iter() {
            write!(f, " {count}")?;
        }
        Ok(())
    }
}
