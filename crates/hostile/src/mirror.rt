// A second memory, kept by this program beside the listener's: what that ought to be.
use crate::layout::*;
use std::alloc::{AllocError, Global};
use std::array;
use timeline::Event;

#[derive(Clone, Copy, PartialEq, Eq)]
pub enum Phase {
    New,
    Waiting,
    Telling,
    Ending,
    Over,
}

pub const PHASES: usize = Phase::Over as usize + 1;

// No phase has this number.
#[derive(Clone, Copy)]
pub struct NoPhase;

impl TryFrom<u64> for Phase {
    type Error = NoPhase;

    fn try_from(number: u64) -> Result<Phase, NoPhase> {
        match number {
            0 => Ok(Phase::New),
            1 => Ok(Phase::Waiting),
            2 => Ok(Phase::Telling),
            3 => Ok(Phase::Ending),
            4 => Ok(Phase::Over),
            _ => Err(NoPhase),
        }
    }
}

impl From<Phase> for u64 {
    fn from(phase: Phase) -> u64 {
        phase as u64
    }
}

#[derive(Drop)]
pub struct Mirror {
    pub words: Vec<u64>,
}

impl Mirror {
    pub fn new(heap: Global, long: usize) -> Result<Mirror, AllocError> {
        Ok(Mirror {
            words: vec![in heap; 0; long]?,
        })
    }

    pub fn get(&self, at: usize) -> u64 {
        self.words.get(at).copied().unwrap_or(0)
    }

    pub fn set(&mut self, at: usize, number: u64) {
        if let Some(word) = self.words.get_mut(at) {
            *word = number;
        }
    }

    // Some words one behind the other, from a place on.
    pub fn lay(&mut self, at: usize, numbers: &[u64]) {
        let at = at.min(self.words.len());
        for (word, number) in self.words[at..].iter_mut().zip(numbers) {
            *word = *number;
        }
    }

    // Whether the words in front can be the listener's own.
    fn holds(&self) -> bool {
        let len = self.get(LEN);
        self.get(COUNT) < NUMBERS
            && self.get(LATEST) < NUMBERS
            && self.get(START) < SLOTS
            && len <= ROOM + 1
            && self.get(KNOWN) <= len
            && self.get(UPTO) <= len
            && self.get(STALE) <= len
    }

    // The phase, where the words in front can be the listener's own.
    pub fn standing(&self) -> Option<Phase> {
        if !self.holds() {
            return None;
        }
        Phase::try_from(self.get(PHASE)).ok()
    }

    pub fn steps(&self) -> usize {
        (self.get(STEPS) as usize).min(MOST_STEPS)
    }

    pub fn kind_of(&self, step: usize) -> u64 {
        self.get(step_at(step))
    }

    // Whether a never of a step is of a kind.
    fn never_names(&self, step: usize, kind: u64) -> bool {
        let many = (self.get(step_at(step).saturating_add(NEVERS)) as usize).min(MOST_NEVERS);
        (0..many).any(|never| self.get(never_at(step, never)) == kind)
    }

    // Whether a step or a never is of a kind.
    pub fn names(&self, kind: u64) -> bool {
        (0..self.steps()).any(|step| self.kind_of(step) == kind || self.never_names(step, kind))
    }

    // Where the slot of a position begins.
    pub fn slot(&self, position: u64) -> usize {
        let slot = self.get(START).wrapping_add(position) % SLOTS;
        RING.saturating_add(SLOT_LONG.saturating_mul(slot as usize))
    }

    pub fn event(&self, position: u64) -> Event {
        let at = self.slot(position);
        let [heard, time, kind, who, value]: [u64; SLOT_LONG] = array::from_fn(|i| self.get(
            at.saturating_add(i),
        ));
        Event {
            heard,
            time,
            kind,
            who,
            value,
        }
    }

    pub fn set_event(&mut self, position: u64, e: Event) {
        self.lay(
            self.slot(position),
            &[e.heard, e.time, e.kind, e.who, e.value],
        );
    }

    // The first position from one on whose event has a time that is not below a bound.
    pub fn run_below(&self, from: u64, bound: u64) -> u64 {
        let len = self.get(LEN);
        (from..len)
            .find(|position| self.event(*position).time >= bound)
            .unwrap_or(len)
    }
}
