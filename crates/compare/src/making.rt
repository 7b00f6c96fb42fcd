// A case made of a seed and its number: a pattern's row of numbers, and events.
use crate::shapes::{Field, KINDS, NUMBERS, SPANS};
use crate::world::World;
use files::Spaced;
use std::alloc::{AllocError, Global};
use std::fmt;
use timeline::Event;
use trials::Random;

// What is done to a row of numbers once it is made.
#[derive(Clone, Copy)]
pub enum Damage {
    // One number is another.
    Changed,
    // Its end is cut off.
    Cut,
    // Numbers stand behind the pattern.
    Longer,
}

pub const DAMAGES: usize = Damage::Longer as usize + 1;

#[derive(Drop)]
pub struct Case {
    pub heap: Global,
    pub seed: u64,
    pub number: u64,
    pub world: World,
    pub damage: Option<Damage>,
    pub row: Vec<u64>,
    pub events: Vec<Event>,
    // Where the ring begins.
    pub start: u64,
}

// How a case is seen again: alone, and by its pattern and its events.
impl fmt::Display for Case {
    fn fmt<W: fmt::Write>(&self, f: &mut fmt::Formatter<W>) -> fmt::Result {
        write!(
            f,
            "case {} differs (alone: compare {} 1 {})",
            self.number, self.seed, self.number
        )?;
        write!(f, "\npattern: {}", Spaced(&self.row))?;
        write!(
            f,
            "\nring begins at {}; events, with their numbers:",
            self.start
        )?;
        for e in self.events.iter() {
            let numbers = [e.time, e.kind, e.who, e.value];
            write!(f, "\n{}: {}", e.heard, Spaced(&numbers))?;
        }
        Ok(())
    }
}

// Fields and signs have the numbers from 0 on.
const FIELDS: u64 = 3;

const SIGNS: u64 = 3;

// Numbers beyond limits, or at them.
const ODD: [u64; 10] = [
    0,
    3,
    5,
    7,
    KINDS,
    SPANS,
    NUMBERS - 1,
    NUMBERS,
    1 << 63,
    u64::MAX,
];

// How many slots the ring has; how near to its end it begins, where it doesn't at its beginning.
const SLOTS: u64 = 16384;

const NEAR: u64 = 10;

// An event that isn't the latest is up to so much later than it may be.
const BEYOND: u64 = 5;

#[derive(Drop)]
struct Maker {
    heap: Global,
    random: Random,
    world: World,
}

impl Maker {
    // A number that a field is compared with.
    fn number(&mut self, field: u64) -> u64 {
        if self.random.percent(4) {
            return self.random.one_of(&[0, NUMBERS - 1]);
        }
        match Field::try_from(field) {
            Ok(Field::Who) => self.world.whos.one(&mut self.random),
            Ok(Field::Value) => self.world.values.one(&mut self.random),
            _ => self.world.times.one(&mut self.random),
        }
    }

    // The last three numbers of a test.
    fn other(&mut self, field: u64, step: u64) -> [u64; 3] {
        if step == 0 || self.random.percent(40) {
            let unused = self.random.one_of(&[0, 0, 0, u64::MAX]);
            return [0, unused, self.number(field)];
        }
        let back = self.random.one_of(&[1, 1, 1, 1, 2, u64::MAX]);
        let earlier = self.random.below(step);
        if self.random.percent(70) {
            return [back, earlier, field];
        }
        [back, earlier, self.random.below(FIELDS)]
    }

    // One of some numbers, so many times out of a hundred; else 0.
    fn sometimes(&mut self, chance: u64, some: &[u64]) -> u64 {
        if self.random.percent(chance) {
            self.random.one_of(some)
        } else {
            0
        }
    }

    fn push_tests(&mut self, row: &mut Vec<u64>, step: u64) -> Result<(), AllocError> {
        let many = self.sometimes(self.world.tests, &[1, 1, 1, 2, 2, 4]);
        row.push(many)?;
        for _ in 0..many {
            let field = self.random.below(FIELDS);
            let sign = self.random.below(SIGNS);
            let [back, earlier, other] = self.other(field, step);
            row.extend_from_slice(&[field, sign, back, earlier, other])?;
        }
        Ok(())
    }

    fn push_nevers(&mut self, row: &mut Vec<u64>, step: u64) -> Result<(), AllocError> {
        let many = self.sometimes(self.world.nevers, &[1, 2]);
        row.push(many)?;
        for _ in 0..many {
            row.push(self.world.kinds.one(&mut self.random))?;
            self.push_tests(row, step)?;
        }
        Ok(())
    }

    fn row(&mut self) -> Result<Vec<u64>, AllocError> {
        let world = self.world;
        let mut row = vec![in self.heap; world.within, world.late, world.steps]?;
        for step in 0..world.steps {
            row.push(world.kinds.one(&mut self.random))?;
            self.push_tests(&mut row, step)?;
            self.push_nevers(&mut row, step)?;
        }
        Ok(row)
    }

    fn damage(&mut self, row: &mut Vec<u64>) -> Result<Option<Damage>, AllocError> {
        let at = self.random.below(row.len() as u64) as usize;
        let odd = self.random.one_of(&ODD);
        match self.random.below(25) {
            0 => {
                if let Some(number) = row.get_mut(at) {
                    *number = odd;
                }
                Ok(Some(Damage::Changed))
            }
            1 => {
                row.truncate(at);
                Ok(Some(Damage::Cut))
            }
            2 => {
                row.extend_from_slice(&[odd, odd, odd])?;
                Ok(Some(Damage::Longer))
            }
            _ => Ok(None),
        }
    }

    // An event at or before a time, most often of a kind that a step may have.
    fn event(&mut self, heard: u64, clock: u64) -> Event {
        let world = self.world;
        let back = if self.random.percent(50) {
            self.random
                .below(world.late.min(SLOTS).saturating_add(BEYOND))
        } else {
            0
        };
        let kind = if self.random.percent(8) {
            world.kinds.first.wrapping_sub(1) % KINDS
        } else {
            world.kinds.one(&mut self.random)
        };
        Event {
            heard,
            time: clock.saturating_sub(back).min(NUMBERS - 1),
            kind,
            who: world.whos.one(&mut self.random),
            value: world.values.one(&mut self.random),
        }
    }

    fn events(&mut self) -> Result<Vec<Event>, AllocError> {
        let mut events = Vec::new(self.heap);
        let mut clock = self.world.times.first;
        let pace = self.world.pace.saturating_add(1);
        for heard in 0..self.world.events {
            events.push(self.event(heard, clock))?;
            let leap = if self.random.percent(10) {
                self.world.leap
            } else {
                0
            };
            clock = clock
                .saturating_add(leap)
                .saturating_add(self.random.below(pace));
        }
        Ok(events)
    }
}

impl Case {
    pub fn make(heap: Global, seed: u64, number: u64) -> Result<Case, AllocError> {
        let mut random = Random::of_case(seed, number);
        let world = World::draw(&mut random);
        let mut maker = Maker {
            heap,
            random,
            world,
        };
        let mut row = maker.row()?;
        let damage = maker.damage(&mut row)?;
        let events = maker.events()?;
        let start = if maker.random.percent(50) {
            0
        } else {
            (SLOTS - 1).saturating_sub(maker.random.below(NEAR))
        };
        Ok(Case {
            heap,
            seed,
            number,
            world,
            damage,
            row,
            events,
            start,
        })
    }
}
