// A listener's memory and its mirror, and how both are damaged.
use crate::layout::{
    COUNT, KNOWN, LATEST, LEN, NUMBERS, PHASE, PLACES, RING, ROOM, SLOT_LONG, SLOTS, STALE, START,
    STEPS, UPTO, WITHIN,
};
use crate::mirror::{Mirror, Phase};
use listener::MEMORY_LONG;
use std::alloc::{AllocError, Global};
use trials::Random;

// More events than so many are held with patterns of one step only: else the search for rows among garbage could take for ever.
const MANY: u64 = 14;

// Numbers at the limits of the words in front, and beyond.
const EDGES: [u64; 12] = [
    0,
    1,
    7,
    ROOM - 1,
    ROOM,
    ROOM + 1,
    ROOM + 2,
    SLOTS - 1,
    SLOTS,
    NUMBERS - 1,
    NUMBERS,
    u64::MAX,
];

// Numbers that whole memories are filled with.
const FILLINGS: [u64; 6] = [0, 1, 2, 7, ROOM + 1, u64::MAX];

// Numbers in garbage, most often.
const SMALL: u64 = 9;

#[derive(Drop)]
pub struct Pair {
    pub memory: Vec<u64>,
    pub mirror: Mirror,
}

impl Pair {
    pub fn new(heap: Global) -> Result<Pair, AllocError> {
        Ok(Pair {
            memory: vec![in heap; 0; MEMORY_LONG]?,
            mirror: Mirror::new(heap, MEMORY_LONG)?,
        })
    }

    fn set(&mut self, at: usize, number: u64) {
        self.mirror.set(at, number);
        if let Some(word) = self.memory.get_mut(at) {
            *word = number;
        }
    }

    fn fill(&mut self, number: u64) {
        self.mirror.words.fill(number);
        self.memory.fill(number);
    }

    fn refill(&mut self, random: &mut Random) {
        let words = self.memory.iter_mut().zip(self.mirror.words.iter_mut());
        for (word, same) in words {
            *word = random.below(SMALL);
            *same = *word;
        }
    }

    // A word in front: at a limit, or by one away from what it was.
    fn harm_front(&mut self, random: &mut Random) {
        let at = random.below(WITHIN as u64) as usize;
        let number = match random.below(3) {
            0 => self.mirror.get(at).wrapping_add(1),
            1 => self.mirror.get(at).wrapping_sub(1),
            _ => random.one_of(&EDGES),
        };
        self.set(at, number);
    }

    fn harm_pattern(&mut self, random: &mut Random) {
        let long = RING.saturating_sub(WITHIN) as u64;
        let at = WITHIN.saturating_add(random.below(long) as usize);
        let number = match random.below(4) {
            0 => random.one_of(&EDGES),
            _ => random.below(SMALL),
        };
        self.set(at, number);
    }

    // A number of an event that is held, or near those, or of any.
    fn harm_ring(&mut self, random: &mut Random) {
        let position = match random.below(4) {
            0 => random.below(SLOTS),
            _ => random.below(self.mirror.get(LEN).saturating_add(2)),
        };
        let at = self
            .mirror
            .slot(position)
            .saturating_add(random.below(SLOT_LONG as u64) as usize);
        let number = match random.below(4) {
            0 => random.one_of(&EDGES),
            _ => random.below(SMALL),
        };
        self.set(at, number);
    }

    // Words in front that can be the listener's own, with some events held.
    fn heal(&mut self, random: &mut Random) {
        let len = random.below(MANY);
        let most = len.saturating_add(1);
        self.set(PHASE, random.one_of(&[0, 0, 0, 0, 1, 1, 2, 3]));
        self.set(COUNT, random.below(SLOTS));
        self.set(LATEST, random.below(SMALL));
        self.set(START, random.one_of(&[0, 5, SLOTS - 5, SLOTS - 1]));
        self.set(LEN, len);
        self.set(KNOWN, random.below(most));
        self.set(UPTO, random.below(most));
        self.set(STALE, random.below(most));
        // By places, as the words above: `set` writes each word into both memories.
        for at in PLACES..WITHIN {
            self.set(at, random.below(most));
        }
    }

    // As many events as there is room for, or by one more, none of them stale.
    fn crowd(&mut self, random: &mut Random) {
        self.set(LATEST, 0);
        self.set(LEN, ROOM.saturating_add(random.below(2)));
    }

    fn harm(&mut self, random: &mut Random) {
        match random.below(1600) {
            0 => self.fill(random.one_of(&FILLINGS)),
            1 => self.refill(random),
            2..=59 => self.harm_front(random),
            60..=109 => self.harm_pattern(random),
            110..=159 => self.harm_ring(random),
            160..=163 => self.crowd(random),
            _ => (),
        }
    }

    // Before a call: sometimes a damage, sometimes a repair.
    pub fn prepare(&mut self, random: &mut Random) {
        self.harm(random);
        if let None | Some(Phase::Over) = self.mirror.standing()
            && random.percent(25)
        {
            self.heal(random);
        }
        if self.mirror.get(LEN) > MANY && self.mirror.steps() > 1 {
            self.set(STEPS, 1);
        }
    }
}
