// Patterns as this program reads them from a row of numbers, on its own: it shares no line of it with the listener.
ghost use Rattle.std.specs.Prelude.{◌≡◌};

use std::alloc::{AllocError, Global};
use std::slice;
use thiserror::Error;

// A pattern has one to six steps, each with up to four tests and two nevers, as each never has tests.
pub const MOST_STEPS: usize = 6;

pub const MOST_TESTS: u64 = 4;

pub const MOST_NEVERS: u64 = 2;

// Windows and lateness, kinds, and all other numbers are below these.
pub const SPANS: u64 = 1 << 40;

pub const KINDS: u64 = 1 << 16;

pub const NUMBERS: u64 = 1 << 62;

// Why no pattern was read.
#[derive(Debug, Drop, Error)]
pub enum Unread {
    #[error("no pattern")]
    NoPattern,
    #[error(transparent)]
    Memory(#[from(alloc)] AllocError),
}

#[derive(Clone, Copy)]
pub enum Field {
    Who,
    Value,
    Time,
}

impl TryFrom<u64> for Field {
    type Error = Unread;

    fn try_from(number: u64) -> Result<Field, Unread> {
        match number {
            0 => Ok(Field::Who),
            1 => Ok(Field::Value),
            2 => Ok(Field::Time),
            _ => Err(Unread::NoPattern),
        }
    }
}

#[derive(Clone, Copy)]
pub enum Sign {
    Equal,
    Below,
    NotBelow,
}

impl TryFrom<u64> for Sign {
    type Error = Unread;

    fn try_from(number: u64) -> Result<Sign, Unread> {
        match number {
            0 => Ok(Sign::Equal),
            1 => Ok(Sign::Below),
            2 => Ok(Sign::NotBelow),
            _ => Err(Unread::NoPattern),
        }
    }
}

// What a field is compared with.
#[derive(Clone, Copy)]
pub enum Other {
    Number(u64),
    // The field of an earlier step's event.
    Earlier(usize, Field),
}

#[derive(Clone, Copy)]
pub struct Test {
    pub field: Field,
    pub sign: Sign,
    pub other: Other,
}

#[derive(Drop)]
pub struct Never {
    pub kind: u64,
    pub tests: Vec<Test>,
}

#[derive(Drop)]
pub struct Step {
    pub kind: u64,
    pub tests: Vec<Test>,
    pub nevers: Vec<Never>,
}

#[derive(Drop)]
pub struct Pattern {
    pub within: u64,
    pub late: u64,
    pub steps: Vec<Step>,
}

// Reads a row of numbers from the left; behind its end stand zeros.
#[derive(Drop)]
struct Reader<'a> {
    heap: Global,
    numbers: slice::Iter<'a, u64>,
}

impl Reader<'_> {
    fn number(&mut self) -> u64 {
        self.numbers.next().copied().unwrap_or(0)
    }

    fn below(&mut self, bound: u64) -> Result<u64, Unread> {
        let number = self.number();
        if number < bound {
            Ok(number)
        } else {
            Err(Unread::NoPattern)
        }
    }

    // Three numbers: 0 and one that isn't looked at, then a number; or any other, then the earlier step and its field.
    fn other(&mut self, step: usize) -> Result<Other, Unread> {
        if self.number() == 0 {
            let _unused = self.number();
            return Ok(Other::Number(self.below(NUMBERS)?));
        }
        let earlier = self.below(step as u64)?;
        let field = Field::try_from(self.number())?;
        Ok(Other::Earlier(earlier as usize, field))
    }

    fn test(&mut self, step: usize) -> Result<Test, Unread> {
        let field = Field::try_from(self.number())?;
        let sign = Sign::try_from(self.number())?;
        let other = self.other(step)?;
        Ok(Test { field, sign, other })
    }

    fn tests(&mut self, step: usize) -> Result<Vec<Test>, Unread> {
        let many = self.below(MOST_TESTS + 1)?;
        let heap = self.heap;
        (0..many).map(|_| self.test(step)).try_collect(heap)
    }

    fn never(&mut self, step: usize) -> Result<Never, Unread> {
        let kind = self.below(KINDS)?;
        let tests = self.tests(step)?;
        Ok(Never { kind, tests })
    }

    fn nevers(&mut self, step: usize) -> Result<Vec<Never>, Unread> {
        let many = self.below(MOST_NEVERS + 1)?;
        let heap = self.heap;
        (0..many).map(|_| self.never(step)).try_collect(heap)
    }

    fn step(&mut self, step: usize) -> Result<Step, Unread> {
        let kind = self.below(KINDS)?;
        let tests = self.tests(step)?;
        let nevers = self.nevers(step)?;
        Ok(Step {
            kind,
            tests,
            nevers,
        })
    }

    fn steps(&mut self) -> Result<Vec<Step>, Unread> {
        let many = self.below(MOST_STEPS as u64 + 1)?;
        if many == 0 {
            return Err(Unread::NoPattern);
        }
        let heap = self.heap;
        (0..many as usize)
            .map(|step| self.step(step))
            .try_collect(heap)
    }

    fn pattern(&mut self) -> Result<Pattern, Unread> {
        let within = self.below(SPANS)?;
        let late = self.below(SPANS)?;
        let steps = self.steps()?;
        Ok(Pattern {
            within,
            late,
            steps,
        })
    }
}

impl Pattern {
    // None where the numbers are no pattern.
    pub fn read(heap: Global, row: &[u64]) -> Result<Option<Pattern>, AllocError> {
        let mut reader = Reader {
            heap,
            numbers: row.iter(),
        };
        match reader.pattern() {
            Ok(pattern) => Ok(Some(pattern)),
            Err(Unread::NoPattern) => Ok(None),
            Err(Unread::Memory(e)) => Err(e),
        }
    }

    // The same without its nevers.
    pub fn forget_nevers(&mut self) {
        for step in self.steps.iter_mut() {
            step.nevers.clear();
        }
    }
}
