// From what the numbers of a case are drawn: few of each, so that rows do occur, some of them at their limits.
use crate::shapes::{KINDS, MOST_STEPS, NUMBERS, SPANS};
use trials::Random;

// So many neighbouring numbers.
#[derive(Clone, Copy)]
pub struct Range {
    pub first: u64,
    pub many: u64,
}

impl Range {
    // Up to so many, most often from 0 on, else the last ones below a limit.
    fn draw(random: &mut Random, most: u64, limit: u64) -> Range {
        let many = random.below(most).saturating_add(1);
        let first = if random.percent(85) {
            0
        } else {
            limit.saturating_sub(many)
        };
        Range { first, many }
    }

    pub fn one(self, random: &mut Random) -> u64 {
        self.first.saturating_add(random.below(self.many))
    }
}

// How long a window or a lateness is.
#[derive(Clone, Copy)]
pub enum Scale {
    Zero,
    Small,
    Huge,
}

pub const SCALES: usize = Scale::Huge as usize + 1;

impl Scale {
    fn draw(random: &mut Random) -> Scale {
        match random.below(20) {
            0 | 1 => Scale::Zero,
            2 | 3 => Scale::Huge,
            _ => Scale::Small,
        }
    }

    fn span(self, random: &mut Random, most: u64) -> u64 {
        match self {
            Scale::Zero => 0,
            Scale::Small => random.below(most).saturating_add(1),
            Scale::Huge => (SPANS - 1).saturating_sub(random.below(2)),
        }
    }
}

#[derive(Clone, Copy)]
pub struct World {
    pub steps: u64,
    pub events: u64,
    pub window: Scale,
    pub within: u64,
    pub lateness: Scale,
    pub late: u64,
    pub kinds: Range,
    pub whos: Range,
    pub values: Range,
    pub times: Range,
    // By how much time goes on from one event to the next, at most.
    pub pace: u64,
    // By how much time leaps now and then: not at all, or about as long as a window can be.
    pub leap: u64,
    // How often a step has tests and nevers, out of a hundred.
    pub tests: u64,
    pub nevers: u64,
}

// At most so many events for a pattern of one to six steps.
const MOST_EVENTS: [u64; MOST_STEPS] = [60, 40, 24, 18, 15, 14];

// How many kinds, by the number of steps.
const MOST_KINDS: [u64; MOST_STEPS] = [3, 3, 3, 2, 2, 2];

// How often a step has tests and nevers out of a hundred, or twice as often, by the number of steps.
const TESTS: [u64; MOST_STEPS] = [40, 30, 22, 16, 12, 10];

const NEVERS: [u64; MOST_STEPS] = [35, 35, 30, 25, 22, 20];

// How many whos and values.
const MOST_WHOS: u64 = 3;

const MOST_VALUES: u64 = 4;

// The longest window and lateness of the small ones.
const MOST_WITHIN: u64 = 24;

const MOST_LATE: u64 = 8;

fn of_steps(table: [u64; MOST_STEPS], steps: u64) -> u64 {
    table
        .get(steps.saturating_sub(1) as usize)
        .copied()
        .unwrap_or(1)
}

// Most often at least half as many as there may be.
fn draw_events(random: &mut Random, steps: u64) -> u64 {
    let most = of_steps(MOST_EVENTS, steps);
    let least = if random.percent(85) { most / 2 } else { 0 };
    least
        .saturating_add(random.below(most.saturating_sub(least)))
        .saturating_add(1)
}

// The times of a case: from 0 on, up to the last one there is, or in between.
fn draw_times(random: &mut Random, events: u64) -> Range {
    let first = match random.below(10) {
        0 => NUMBERS.saturating_sub(events),
        1 => random.below(NUMBERS / 2),
        _ => 0,
    };
    Range {
        first,
        many: events,
    }
}

impl World {
    pub fn draw(random: &mut Random) -> World {
        let steps = random.below(MOST_STEPS as u64).saturating_add(1);
        let events = draw_events(random, steps);
        let window = Scale::draw(random);
        let lateness = Scale::draw(random);
        World {
            steps,
            events,
            window,
            within: window.span(random, MOST_WITHIN),
            lateness,
            late: lateness.span(random, MOST_LATE),
            kinds: Range::draw(random, of_steps(MOST_KINDS, steps), KINDS),
            whos: Range::draw(random, MOST_WHOS, NUMBERS),
            values: Range::draw(random, MOST_VALUES, NUMBERS),
            times: draw_times(random, events),
            pace: random.one_of(&[1, 2, 2, 6]),
            leap: random.one_of(&[0, 0, 0, SPANS - 2]),
            tests: of_steps(TESTS, steps).saturating_mul(random.below(3)),
            nevers: of_steps(NEVERS, steps).saturating_mul(random.below(3)),
        }
    }
}
