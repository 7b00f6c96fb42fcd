// Which rows fit a pattern among some events: the rules, read plainly and tried on every row that could be.
use crate::shapes::{Field, Never, Other, Pattern, Sign, Step, Test};
use std::alloc::{AllocError, Global};
use timeline::Event;

// Where an event stands among the others: by time, and of the same time as it came.
#[derive(Clone, Copy, PartialEq, Eq, PartialOrd, Ord)]
pub struct Moment {
    pub time: u64,
    pub number: u64,
}

impl From<Event> for Moment {
    fn from(e: Event) -> Moment {
        Moment {
            time: e.time,
            number: e.heard,
        }
    }
}

// A row that fits. Rows are told by their last event, then their first, their second, and so on, which is the order of these fields.
#[derive(Drop, PartialEq, Eq, PartialOrd, Ord)]
pub struct Fit {
    pub last: Moment,
    pub all: Vec<Moment>,
}

impl Field {
    fn of(self, e: Event) -> u64 {
        match self {
            Field::Who => e.who,
            Field::Value => e.value,
            Field::Time => e.time,
        }
    }
}

impl Test {
    // Whether it holds of an event, behind a row's earlier events.
    fn holds(self, row: &[Event], e: Event) -> bool {
        let own = self.field.of(e);
        let other = match self.other {
            Other::Number(number) => number,
            Other::Earlier(step, field) => match row.get(step) {
                Some(earlier) => field.of(*earlier),
                None => return false,
            },
        };
        match self.sign {
            Sign::Equal => own == other,
            Sign::Below => own < other,
            Sign::NotBelow => own >= other,
        }
    }
}

fn all_hold(tests: &[Test], row: &[Event], e: Event) -> bool {
    tests.iter().all(|test| test.holds(row, e))
}

impl Never {
    fn is_hit(&self, row: &[Event], e: Event) -> bool {
        e.kind == self.kind && all_hold(&self.tests, row, e)
    }
}

impl Step {
    fn forbids(&self, row: &[Event], e: Event) -> bool {
        self.nevers.iter().any(|never| never.is_hit(row, e))
    }

    // Whether some event strictly between two others is forbidden.
    fn is_broken(&self, all: &[Event], row: &[Event], from: Moment, to: Moment) -> bool {
        all.iter().any(|e| {
            let at = Moment::from(*e);
            from < at && at < to && self.forbids(row, *e)
        })
    }

    // Whether an event may be this step's, behind a row's earlier events.
    fn goes_on(&self, all: &[Event], row: &[Event], e: Event) -> bool {
        if e.kind != self.kind || !all_hold(&self.tests, row, e) {
            return false;
        }
        let Some(before) = row.last() else {
            return true;
        };
        let from = Moment::from(*before);
        let to = Moment::from(e);
        from < to && !self.is_broken(all, row, from, to)
    }
}

// A whole row, if it lies within the window.
fn whole(heap: Global, row: &[Event], within: u64) -> Result<Option<Fit>, AllocError> {
    let (Some(first), Some(last)) = (row.first(), row.last()) else {
        return Ok(None);
    };
    if last.time.saturating_sub(first.time) > within {
        return Ok(None);
    }
    let all = row.iter().map(|e| Moment::from(*e)).collect(heap)?;
    let last = Moment::from(*last);
    Ok(Some(Fit { last, all }))
}

// A search among some events: the row so far, and the rows that fit.
#[derive(Drop)]
struct Search<'a> {
    heap: Global,
    all: &'a [Event],
    within: u64,
    row: Vec<Event>,
    fits: Vec<Fit>,
}

impl Search<'_> {
    // Finds the rows that begin as the row so far and go on by an event for each of these steps.
    fn go_on(&mut self, steps: &[Step]) -> Result<(), AllocError> {
        let Some((step, later)) = steps.split_first() else {
            if let Some(fit) = whole(self.heap, &self.row, self.within)? {
                self.fits.push(fit)?;
            }
            return Ok(());
        };
        for e in self.all {
            if step.goes_on(self.all, &self.row, *e) {
                self.row.push(*e)?;
                self.go_on(later)?;
                self.row.pop();
            }
        }
        Ok(())
    }
}

impl Pattern {
    // All rows that fit among some events, in the order in which they are told.
    pub fn fits(&self, heap: Global, all: &[Event]) -> Result<Vec<Fit>, AllocError> {
        let mut search = Search {
            heap,
            all,
            within: self.within,
            row: Vec::new(heap),
            fits: Vec::new(heap),
        };
        search.go_on(&self.steps)?;
        let Search { mut fits, .. } = search;
        fits.sort()?;
        Ok(fits)
    }
}
