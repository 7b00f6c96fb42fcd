// Rows so far, and how they go on by one step.
ghost use Rattle.std.specs.Prelude.{◌≡◌, true, [], ◌∷◌, ◌++◌, is_ok, IfOk};
ghost use Rattle.timeline.specs.Lists.{flat};
ghost use Rattle.patterns.specs.Kept.{kept_step, kept_pattern};
ghost use Rattle.rows.specs.Rows.{clear, goes_on};
ghost use Rattle.rows.specs.Finder.{lists, follows, disturbs, longer};

use crate::told::last_of;
use patterns::Kept;
use std::alloc::{AllocError, Global};
use timeline::Event;

// Whether an event is behind a row's last one, and within the window from its first.
fn is_behind(within: u64, row: &[Event], e: Event) -> bool
    ensures { result ≡ follows within row.now e }
{
    if row.is_empty() {
        return true;
    }
    last_of(row).before(e) && e.time <= row[0].time.saturating_add(within)
}

// A row and one event more.
fn with_next(heap: Global, row: &[Event], next: Event) -> Result<Vec<Event>, AllocError>
    ensures { IfOk result (λ v. v.items ≡ row.now ++ next ∷ []) }
{
    let mut long = Vec::from_slice(heap, row)?;
    long.push(next)?;
    Ok(long)
}

// A step of a pattern, and all events that may come next by it.
#[derive(Clone, Copy)]
pub(crate) struct Extension<'a> {
    pub pattern: Kept<'a>,
    pub step: usize,
    pub all: &'a [Event],
}

impl Extension<'_> {
    // Whether an event lies between a row's last one and the next, and is one that a never of the step forbids.
    fn is_disturbed_by(self, row: &[Event], next: Event, f: Event) -> bool
        ensures { result ≡ disturbs row.now (kept_step self.entry.pattern.words.now self.entry.step) next f }
    {
        last_of(row).before(f) && f.before(next) && self.pattern.hit(self.step, row, f)
    }

    // Whether no event disturbs a row and the next event.
    fn is_clear(self, row: &[Event], next: Event) -> bool
        ensures { result ≡ clear self.entry.all.now row.now next (kept_step self.entry.pattern.words.now self.entry.step) }
    {
        row.is_empty() || !self.all.iter().any(|f| self.is_disturbed_by(row, next, *f))
    }

    // Whether an event may come next in a row.
    fn may_go_on(self, row: &[Event], next: Event) -> bool
        ensures { result ≡ goes_on self.entry.all.now (kept_pattern self.entry.pattern.words.now).within row.now (kept_step self.entry.pattern.words.now self.entry.step) next }
    {
        self.pattern.fits(self.step, row, next)
            && is_behind(self.pattern.within(), row, next)
            && self.is_clear(row, next)
    }

    // All rows that a row goes on to, put behind others.
    fn go_on(
        self,
        heap: Global,
        row: &[Event],
        rows: &mut Vec<Vec<Event>>,
    ) -> Result<(), AllocError>
        ensures { is_ok result ≡ true → lists rows.new.items ≡ lists rows.old.items ++ longer self.entry.all.now (kept_pattern self.entry.pattern.words.now).within (kept_step self.entry.pattern.words.now self.entry.step) row.now }
    {
        for e in self.all {
            if self.may_go_on(row, *e) {
                rows.push(with_next(heap, row, *e)?)?;
            }
        }
        Ok(())
    }

    // All rows that some rows go on to.
    pub fn all_go_on(self, heap: Global, rows: &[Vec<Event>]) -> Result<Vec<Vec<Event>>, AllocError>
        ensures { IfOk result (λ v. lists v.items ≡ flat (longer self.entry.all.now (kept_pattern self.entry.pattern.words.now).within (kept_step self.entry.pattern.words.now self.entry.step)) (lists rows.now)) }
    {
        let mut long = Vec::new(heap);
        for row in rows {
            self.go_on(heap, row, &mut long)?;
        }
        Ok(long)
    }
}
