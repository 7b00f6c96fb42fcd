// The words in front of the memory: what the listener is doing, and where.
ghost use Rattle.std.specs.Prelude.{◌≡◌, ◌∷◌, ◌++◌, IfSome};
ghost use Rattle.rows.specs.Finding.{six};
ghost use Rattle.listener.specs.Machine.{phase_number, head_words, memory_of, head_of, cells_of, ring_of, a_head, Bounded, head_at};

use patterns::PATTERN_WORDS;
use patterns::layout::{MOST_STEPS, NUMBERS};
use std::array;
use timeline::{CAPACITY, RING_LONG};

// Where the positions of the search stand in the memory, behind the other words of the state.
const AT: usize = 8;

// Where the pattern and the ring begin in the memory, and how many numbers it has.
pub const CELLS: usize = 14;

pub const RING: usize = CELLS + PATTERN_WORDS;

pub const MEMORY_LONG: usize = RING + RING_LONG;

// The memory, and the front of the lent row, where a row that is told stands. They are passed side by side: each method of a struct that
// held both as `&mut` would have to ensure that it still holds the same two.
pub type Memory = [u64; MEMORY_LONG];

pub type Row = [u64; MOST_STEPS];

// At most so many events are held between two events.
pub const ROOM: usize = 8192;

// What the listener is doing between two acts.
#[derive(Clone, Copy, PartialEq, Eq, Debug)]
pub enum Phase {
    // It has no pattern yet.
    New,
    // It waits for an event.
    Waiting,
    // It tells the rows that became known by an event.
    Telling,
    // Nothing more comes: it tells what is left.
    Ending,
    Over,
}

impl From<Phase> for u64 {
    ghost from_gives = { λ phase number. number ≡ phase_number phase };

    fn from(phase: Phase) -> u64 {
        match phase {
            Phase::New => 0,
            Phase::Waiting => 1,
            Phase::Telling => 2,
            Phase::Ending => 3,
            Phase::Over => 4,
        }
    }
}

// The listener's state, but for its phase, its pattern and the events that it holds.
// That it lies in the ring is a clause, `InRing`, no invariant or ghost field: the definitions make states of any words, in it or not.
#[derive(Clone, Copy, PartialEq, Eq, Debug)]
pub struct Head {
    // How many events came.
    pub count: u64,
    // The greatest time of an event that counted.
    pub latest: u64,
    // Where the held events begin in the ring, and how many there are.
    pub start: usize,
    pub len: usize,
    // How many of them, from the beginning, end no row that is still to be told.
    pub known: usize,
    // While rows are told: before which position their last events lie, and how many events are forgotten afterwards.
    pub upto: usize,
    pub stale: usize,
    // While rows are told: the positions of the search.
    pub at: [usize; MOST_STEPS],
}

impl Head {
    // The state of a listener that has just been given its pattern.
    pub const BLANK: Head = Head {
        count: 0,
        latest: 0,
        start: 0,
        len: 0,
        known: 0,
        upto: 0,
        stale: 0,
        at: [0; MOST_STEPS],
    };

    // Whether the listener can have written it: then no index leaves the memory.
    fn holds(self) -> bool
        ensures { result ≡ a_head self }
    {
        self.count < NUMBERS
            && self.latest < NUMBERS
            && self.start < CAPACITY
            && self.len <= ROOM + 1
            && self.known <= self.len
            && self.upto <= self.len
            && self.stale <= self.len
    }

    fn load(memory: &Memory) -> Head
        ensures { result ≡ head_of memory.now }
    {
        let [_, count, latest, start, len, known, upto, stale, ..] = *memory;
        Head {
            count,
            latest,
            start: start as usize,
            len: len as usize,
            known: known as usize,
            upto: upto as usize,
            stale: stale as usize,
            at: array::from_fn(|i| memory[AT + i] as usize),
        }
    }

    // The state, where it is one and the phase is this.
    pub fn in_phase(memory: &Memory, phase: Phase) -> Option<Head>
        ensures value { result ≡ head_at phase memory.now }
        ensures bound { IfSome result Bounded }
    {
        let head = Head::load(memory);
        (memory[0] == u64::from(phase) && head.holds()).then_some(head)
    }

    // The words in which it stands: that of the phase, and those before the positions of the search.
    fn words(self, phase: Phase) -> [u64; AT]
        ensures { result ++ six self.at ≡ phase_number phase ∷ head_words self }
    {
        [
            u64::from(phase),
            self.count,
            self.latest,
            self.start as u64,
            self.len as u64,
            self.known as u64,
            self.upto as u64,
            self.stale as u64,
        ]
    }

    // The positions of the search as words.
    fn places(self) -> Row
        ensures { result ≡ six self.at }
    {
        self.at.map(|place| place as u64)
    }

    pub fn store(self, memory: &mut Memory, phase: Phase)
        ensures { memory.new ≡ memory_of phase self (cells_of memory.old) (ring_of memory.old) }
    {
        memory[..AT].copy_from_slice(&self.words(phase));
        memory[AT..CELLS].copy_from_slice(&self.places());
    }
}

// What follows of an event that comes.
#[derive(Clone, Copy, PartialEq, Eq, Debug)]
pub enum Turn {
    // It is too late.
    Late,
    // More would have to be held than there is room for.
    Full,
    // It counts: the state then, and whether the pattern names the event, so that it has to be held. One variant for both, as the
    // definitions have it: the state, and what is known of it, is the same whether the event is named or not.
    Counts { head: Head, named: bool },
}
