// Which kinds a kept pattern names.
ghost use Rattle.std.specs.Prelude.{◌≡◌};
ghost use Rattle.patterns.specs.Named.{step_names, kind_named};
ghost use Rattle.patterns.specs.Kept.{kept_step, kept_pattern};

use crate::kept::Kept;
use crate::layout::NEVER_WORDS;
use crate::views::Item;

impl Kept<'_> {
    // Whether a step, or a never of it, is of a kind.
    fn step_names(self, step: usize, kind: u64) -> bool
        ensures { result ≡ step_names kind (kept_step self.entry.words.now step) }
    {
        let step = self.step(step);
        let is_of_kind = |words: &[u64; NEVER_WORDS]| Item { words }.kind() == kind;
        step.item().kind() == kind || step.nevers().iter().any(is_of_kind)
    }

    // Whether some step or never is of a kind.
    pub fn is_named(self, kind: u64) -> bool
        ensures { result ≡ kind_named (kept_pattern self.entry.words.now) kind }
    {
        (0..self.steps()).any(|step| self.step_names(step, kind))
    }
}
