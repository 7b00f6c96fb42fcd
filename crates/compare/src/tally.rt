// What happened in all cases, counted.
use crate::making::{Case, DAMAGES};
use crate::said::{End, Said};
use crate::shapes::MOST_STEPS;
use crate::world::SCALES;
use std::fmt;
use trials::{Counts, add};

#[derive(Default, Drop)]
pub struct Tally {
    cases: u64,
    no_pattern: u64,
    events: u64,
    late: u64,
    rows: u64,
    // Rows of patterns of one to six steps, and cases with such.
    rows_of: Counts<MOST_STEPS>,
    cases_of: Counts<MOST_STEPS>,
    // Rows that nothing but a never forbade, and cases with such.
    forbidden: u64,
    guarded: u64,
    // Rows that weren't known before nothing more came.
    at_end: u64,
    // Windows and lateness, by their scales.
    windows: Counts<SCALES>,
    latenesses: Counts<SCALES>,
    // Rows of numbers that were damaged, by the damage.
    damages: Counts<DAMAGES>,
    // Cases whose ring begins near its end.
    seams: u64,
}

impl Tally {
    // A case as it was made.
    pub fn count_case(&mut self, case: &Case) {
        add(&mut self.cases, 1);
        self.windows.add(case.world.window as usize, 1);
        self.latenesses.add(case.world.lateness as usize, 1);
        if let Some(damage) = case.damage {
            self.damages.add(damage as usize, 1);
        }
        if case.start > 0 {
            add(&mut self.seams, 1);
        }
    }

    pub fn count_no_pattern(&mut self) {
        add(&mut self.no_pattern, 1);
    }

    // What was rightly said of an event, or at the end.
    pub fn count_said(&mut self, said: &Said) {
        match said.end {
            End::Waits => add(&mut self.events, 1),
            End::Late => {
                add(&mut self.events, 1);
                add(&mut self.late, 1);
            }
            End::Over => add(&mut self.at_end, said.rows.len() as u64),
            End::Refused(_) | End::Endless => (),
        }
    }

    // All rows of a case whose pattern has so many steps, and how many rows nothing but a never forbade.
    pub fn count_rows(&mut self, steps: usize, rows: u64, forbidden: u64) {
        let place = steps.saturating_sub(1);
        add(&mut self.rows, rows);
        self.rows_of.add(place, rows);
        self.cases_of.add(place, rows.min(1));
        add(&mut self.forbidden, forbidden);
        add(&mut self.guarded, forbidden.min(1));
    }
}

impl fmt::Display for Tally {
    fn fmt<W: fmt::Write>(&self, f: &mut fmt::Formatter<W>) -> fmt::Result {
        write!(
            f,
            "{} cases, {} events, {} rows, {} late, {} no pattern: no difference",
            self.cases, self.events, self.rows, self.late, self.no_pattern
        )?;
        write!(
            f,
            "\nrows of one to six steps:{}; cases with such:{}",
            self.rows_of, self.cases_of
        )?;
        write!(
            f,
            "\nrows known at the end only: {}; forbidden by a never: {} in {} cases",
            self.at_end, self.forbidden, self.guarded
        )?;
        write!(
            f,
            "\ncases with a window of 0, small, huge:{}; lateness:{}",
            self.windows, self.latenesses
        )?;
        write!(
            f,
            "\nrows of numbers changed, cut, longer:{}; rings over their seam: {}",
            self.damages, self.seams
        )
    }
}
