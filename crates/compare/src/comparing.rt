// One case: the listener beside what is known when, and all its rows beside the finder's.
use crate::difference::{Difference, Place};
use crate::knowing::Knowing;
use crate::listening::Listening;
use crate::making::Case;
use crate::said::{End, Row, Said};
use crate::shapes::Pattern;
use crate::tally::Tally;
use listener::Refusal;
use rows::{FindError, find_all, find_counted};
use std::alloc::AllocError;
use thiserror::Error;
use timeline::Event;

// Why a case isn't gone through to its end.
#[derive(Debug, Drop, Error)]
pub enum Stop {
    #[error("the listener says something else")]
    Differs(Difference),
    #[error(transparent)]
    Memory(#[from(alloc)] AllocError),
    #[error("the finder has not enough memory")]
    Finder,
}

fn same(place: Place, told: Said, right: Said) -> Result<(), Stop> {
    if told == right {
        return Ok(());
    }
    Err(Stop::Differs(Difference { place, told, right }))
}

// One thing that was told: its rows behind the others, where it is right.
fn take(
    rows: &mut Vec<Row>,
    tally: &mut Tally,
    place: Place,
    told: Said,
    right: Said,
) -> Result<(), Stop> {
    rows.extend_from_slice(&told.rows)?;
    tally.count_said(&right);
    same(place, told, right)
}

impl Case {
    fn no_pattern(&self) -> Said {
        Said::only(self.heap, End::Refused(Refusal::NoPattern))
    }

    // What a finder found, as if it were told at the end.
    fn as_said(&self, found: Result<Vec<Vec<u64>>, FindError>) -> Result<Said, Stop> {
        match found {
            Ok(found) => {
                let rows = found
                    .iter()
                    .map(|numbers| Row::of(numbers, |number| *number))
                    .collect(self.heap)?;
                let end = End::Over;
                Ok(Said { rows, end })
            }
            Err(FindError::NoPattern) => Ok(self.no_pattern()),
            Err(FindError::Memory) => Err(Stop::Finder),
        }
    }

    // All rows, of the events that count by the finder's own account.
    fn found_counted(&self) -> Result<Said, Stop> {
        self.as_said(find_counted(self.heap, &self.row, &self.events))
    }

    // All rows of some events.
    fn found_all(&self, events: &[Event]) -> Result<Said, Stop> {
        self.as_said(find_all(self.heap, &self.row, events))
    }

    // What is no pattern is refused by all.
    fn refused(&self, begun: Said) -> Result<(), Stop> {
        same(Place::Pattern, begun, self.no_pattern())?;
        same(Place::Counted, self.found_counted()?, self.no_pattern())?;
        same(Place::All, self.found_all(&self.events)?, self.no_pattern())
    }

    // Each event, and then the end; all rows that were told.
    fn heard(
        &self,
        listening: &mut Listening,
        knowing: &mut Knowing,
        tally: &mut Tally,
    ) -> Result<Vec<Row>, Stop> {
        let mut rows = Vec::new(self.heap);
        for e in self.events.iter() {
            let told = listening.hear(*e)?;
            let right = knowing.hear(*e)?;
            take(&mut rows, tally, Place::Event(e.heard), told, right)?;
        }
        let told = listening.finish()?;
        let right = knowing.finish()?;
        take(&mut rows, tally, Place::End, told, right)?;
        Ok(rows)
    }

    // All rows that were told, beside those that the finder finds.
    fn found(&self, counted: &[Event], rows: Vec<Row>) -> Result<(), Stop> {
        let end = End::Over;
        let again = rows.clone()?;
        same(Place::Counted, Said { rows, end }, self.found_counted()?)?;
        same(
            Place::All,
            Said { rows: again, end },
            self.found_all(counted)?,
        )
    }

    pub fn compare(&self, listening: &mut Listening, tally: &mut Tally) -> Result<(), Stop> {
        tally.count_case(self);
        let begun = listening.begin(&self.row, self.start)?;
        let Some(pattern) = Pattern::read(self.heap, &self.row)? else {
            tally.count_no_pattern();
            return self.refused(begun);
        };
        same(Place::Pattern, begun, Said::only(self.heap, End::Waits))?;
        let mut knowing = Knowing::new(self.heap, pattern);
        let rows = self.heard(listening, &mut knowing, tally)?;
        tally.count_rows(knowing.steps(), rows.len() as u64, knowing.forbidden()?);
        self.found(&knowing.counted, rows)
    }
}
