// What the listener is tried with: calls in turn or not, whole or garbage.
use crate::layout::{KINDS, LATEST, MOST_STEPS, NUMBERS};
use crate::mirror::{Mirror, Phase};
use listener::{Call, MEMORY_LONG, Refusal};
use std::alloc::{AllocError, Global};
use trials::Random;

// What a call is made with. Its kind is a number, as it is passed: garbage is the point.
#[derive(Drop)]
pub struct Trial {
    // How long another memory is, all zeros, that is lent in place of its own.
    pub other_memory: Option<usize>,
    pub kind: u64,
    pub row: Vec<u64>,
    pub out: Vec<u64>,
}

impl Trial {
    // The call that the listener takes up, or its refusal. What the numbers of kinds stand for is said here once more: `Call` is the
    // listener's, but its `try_from`, with which `row` below picks what fits a kind, has no say in what is expected.
    pub fn call(&self) -> Result<Call, Refusal> {
        let call = match self.kind {
            0 => Call::Pattern,
            1 => Call::Event,
            2 => Call::End,
            3 => Call::Next,
            _ => return Err(Refusal::Misfit),
        };
        let fits = self.other_memory.is_none()
            && self.row.len() <= MOST_NUMBERS
            && self.out.len() >= MOST_STEPS;
        if fits { Ok(call) } else { Err(Refusal::Misfit) }
    }
}

// A row has at most so many numbers, and a lent row at least as many as there can be steps.
pub const MOST_NUMBERS: usize = 1024;

// Windows and lateness are below this.
const SPANS: u64 = 1 << 40;

// How many garbage numbers stand in a row, most often, and how large they are.
const SOME: u64 = 60;

const SMALL: u64 = 4;

// Events' kinds, whos and values, most often.
const FEW: u64 = 3;

#[derive(Drop)]
pub struct Maker {
    heap: Global,
    pub random: Random,
}

impl Maker {
    pub fn new(heap: Global, seed: u64) -> Maker {
        Maker {
            heap,
            random: Random::new(seed),
        }
    }

    fn other_memory(&mut self) -> Option<usize> {
        match self.random.below(100) {
            0 => Some(0),
            1 => Some(MEMORY_LONG - 1),
            2 => Some(MEMORY_LONG + 1),
            _ => None,
        }
    }

    // In turn, most often.
    fn kind(&mut self, standing: Option<Phase>) -> u64 {
        if self.random.percent(15) {
            return self.random.one_of(&[0, 1, 2, 3, 4, 5, 1 << 32, u64::MAX]);
        }
        let call = match standing {
            Some(Phase::New) => Call::Pattern,
            Some(Phase::Waiting) if self.random.percent(95) => Call::Event,
            Some(Phase::Waiting) => Call::End,
            Some(Phase::Telling | Phase::Ending) => Call::Next,
            Some(Phase::Over) | None => return self.random.below(4),
        };
        u64::from(call)
    }

    // So many steps of few kinds, some of them with a test or a never.
    fn push_steps(&mut self, row: &mut Vec<u64>, steps: u64) -> Result<(), AllocError> {
        for _ in 0..steps {
            row.push(self.random.below(FEW))?;
            match self.random.below(4) {
                0 => row.extend_from_slice(&[1, 1, 2, 0, 0, self.random.below(FEW), 0])?,
                1 => row.extend_from_slice(&[0, 1, self.random.below(FEW), 0])?,
                _ => row.extend_from_slice(&[0, 0])?,
            }
        }
        Ok(())
    }

    fn pattern(&mut self) -> Result<Vec<u64>, AllocError> {
        let steps = self.random.below(MOST_STEPS as u64).saturating_add(1);
        let within = self.random.one_of(&[0, 3, 9, 9, SPANS - 1]);
        let late = self.random.one_of(&[0, 2, 5, 5, SPANS - 1]);
        let mut row = vec![in self.heap; within, late, steps]?;
        self.push_steps(&mut row, steps)?;
        Ok(row)
    }

    fn event(&mut self, latest: u64) -> Result<Vec<u64>, AllocError> {
        let later = latest.saturating_add(self.random.below(FEW));
        let time = match self.random.below(40) {
            0 => self.random.one_of(&[0, NUMBERS - 1, NUMBERS, u64::MAX]),
            1..=9 => latest.saturating_sub(self.random.below(SOME)),
            _ => later,
        };
        let kind = match self.random.below(40) {
            0 => self.random.one_of(&[KINDS - 1, KINDS, u64::MAX]),
            _ => self.random.below(FEW),
        };
        let who = self.random.below(FEW);
        let value = match self.random.below(80) {
            0 => self.random.one_of(&[NUMBERS - 1, NUMBERS, u64::MAX]),
            _ => self.random.below(FEW),
        };
        Ok(vec![in self.heap; time, kind, who, value]?)
    }

    fn garbage(&mut self) -> Result<Vec<u64>, AllocError> {
        let most = MOST_NUMBERS as u64;
        let many = if self.random.percent(3) {
            self.random.one_of(&[most - 1, most, most + 1])
        } else {
            self.random.below(SOME)
        };
        let heap = self.heap;
        (0..many).map(|_| self.random.below(SMALL)).collect(heap)
    }

    fn row(&mut self, kind: u64, latest: u64) -> Result<Vec<u64>, AllocError> {
        if self.random.percent(10) {
            return self.garbage();
        }
        match Call::try_from(kind) {
            Ok(Call::Pattern) if self.random.percent(20) => self.garbage(),
            Ok(Call::Pattern) => self.pattern(),
            Ok(Call::Event) => self.event(latest),
            Ok(Call::End | Call::Next) | Err(_) => Ok(Vec::new(self.heap)),
        }
    }

    fn out(&mut self) -> Result<Vec<u64>, AllocError> {
        let many = if self.random.percent(4) {
            self.random.below(MOST_STEPS as u64)
        } else {
            (MOST_STEPS as u64).saturating_add(self.random.below(FEW))
        };
        (0..many)
            .map(|i| u64::MAX.saturating_sub(i))
            .collect(self.heap)
    }

    pub fn trial(&mut self, mirror: &Mirror) -> Result<Trial, AllocError> {
        let other_memory = self.other_memory();
        let kind = self.kind(mirror.standing());
        let row = self.row(kind, mirror.get(LATEST))?;
        let out = self.out()?;
        Ok(Trial {
            other_memory,
            kind,
            row,
            out,
        })
    }
}
