// Where the listener's memory has what: 14 words in front, 405 of the pattern, and a ring of slots of five. It is this program's own
// account, so that both can't be wrong together. Shared with the listener are how long its memory is (`MEMORY_LONG`), its `Call`, `Told`
// and `Refusal`, and `patterns::keep`, which says what the words of a pattern are. Places of words and no struct: memories are compared
// word by word, and what they hold may be garbage that no struct could hold.

// The words in front.
pub const PHASE: usize = 0;

pub const COUNT: usize = 1;

pub const LATEST: usize = 2;

pub const START: usize = 3;

pub const LEN: usize = 4;

pub const KNOWN: usize = 5;

pub const UPTO: usize = 6;

pub const STALE: usize = 7;

// Six positions of the search.
pub const PLACES: usize = 8;

// The pattern: its window, its lateness, how many steps, and these.
pub const WITHIN: usize = 14;

pub const LATE: usize = 15;

pub const STEPS: usize = 16;

pub const FIRST_STEP: usize = 17;

pub const STEP_LONG: usize = 67;

// In a step: its nevers, how many and their kinds.
pub const NEVERS: usize = 22;

pub const FIRST_NEVER: usize = 23;

pub const NEVER_LONG: usize = 22;

pub const RING: usize = 419;

pub const SLOT_LONG: usize = 5;

pub const SLOTS: u64 = 16384;

// The most steps and nevers there are; the most events that are held between two events.
pub const MOST_STEPS: usize = 6;

pub const MOST_NEVERS: usize = 2;

pub const ROOM: u64 = 8192;

// Kinds, and all other numbers of an event, are below these.
pub const KINDS: u64 = 1 << 16;

pub const NUMBERS: u64 = 1 << 62;

// Where a step begins.
pub fn step_at(step: usize) -> usize {
    FIRST_STEP.saturating_add(STEP_LONG.saturating_mul(step))
}

// Where a never of a step begins.
pub fn never_at(step: usize, never: usize) -> usize {
    step_at(step)
        .saturating_add(FIRST_NEVER)
        .saturating_add(NEVER_LONG.saturating_mul(never))
}
