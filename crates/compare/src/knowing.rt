// What is known when, as this program has it: after each event all rows of those that counted are looked for again from nothing.
use crate::meaning::Fit;
use crate::said::{End, Row, Said};
use crate::shapes::Pattern;
use std::alloc::{AllocError, Global};
use timeline::Event;

#[derive(Drop)]
pub struct Knowing {
    heap: Global,
    pattern: Pattern,
    // The events that counted, as they came.
    pub counted: Vec<Event>,
    // The rows that were known after the last of them, in order.
    known: Vec<Fit>,
}

impl Knowing {
    pub fn new(heap: Global, pattern: Pattern) -> Knowing {
        Knowing {
            heap,
            pattern,
            counted: Vec::new(heap),
            known: Vec::new(heap),
        }
    }

    pub fn steps(&self) -> usize {
        self.pattern.steps.len()
    }

    // All rows of the events that counted, in order.
    fn fits(&self) -> Result<Vec<Fit>, AllocError> {
        self.pattern.fits(self.heap, &self.counted)
    }

    // The greatest time of an event that counted, less the lateness, and not below 0.
    fn watermark(&self) -> u64 {
        let latest = self.counted.iter().map(|e| e.time).max();
        latest.unwrap_or(0).saturating_sub(self.pattern.late)
    }

    // Those of some rows that weren't known before.
    fn news(&self, fits: &[Fit]) -> Result<Vec<Row>, AllocError> {
        fits.iter()
            .filter(|fit| self.known.binary_search(fit).is_err())
            .map(|fit| Row::of(&fit.all, |moment| moment.number))
            .collect(self.heap)
    }

    // The rows whose last event is not above the watermark, in order.
    fn known_now(&self) -> Result<Vec<Fit>, AllocError> {
        let watermark = self.watermark();
        let mut known = self.fits()?;
        known.retain(|fit| fit.last.time <= watermark);
        Ok(known)
    }

    // What is to be said of an event that comes.
    pub fn hear(&mut self, e: Event) -> Result<Said, AllocError> {
        if e.time < self.watermark() {
            return Ok(Said::only(self.heap, End::Late));
        }
        self.counted.push(e)?;
        let known = self.known_now()?;
        let rows = self.news(&known)?;
        self.known = known;
        Ok(Said {
            rows,
            end: End::Waits,
        })
    }

    // What is to be said when nothing more comes.
    pub fn finish(&self) -> Result<Said, AllocError> {
        let rows = self.news(&self.fits()?)?;
        Ok(Said {
            rows,
            end: End::Over,
        })
    }

    // How many rows of all events nothing but a never forbids. The pattern has no nevers from then on.
    pub fn forbidden(&mut self) -> Result<u64, AllocError> {
        let with = self.fits()?.len();
        self.pattern.forget_nevers();
        let without = self.fits()?.len();
        Ok(without.saturating_sub(with) as u64)
    }
}
