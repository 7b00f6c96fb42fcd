// The limits of a pattern, and where its words stand: three in front, then steps, each a kind, tests and nevers.

pub const MOST_STEPS: usize = 6;

pub const MOST_NEVERS: usize = 2;

pub const MOST_TESTS: usize = 4;

// Kinds, numbers that a field is compared with, lengths of time, fields and signs are below these.
pub const KINDS: u64 = 1 << 16;

pub const NUMBERS: u64 = 1 << 62;

pub const TIMES: u64 = 1 << 40;

pub const FIELDS: u64 = 3;

pub const SIGNS: u64 = 3;

// How many words a test, a never, a step and a pattern have: 5, 22, 67 and 405.
pub const TEST_WORDS: usize = 5;

pub const NEVER_WORDS: usize = TESTS_AT + 1 + MOST_TESTS * TEST_WORDS;

pub const STEP_WORDS: usize = NEVERS_AT + 1 + MOST_NEVERS * NEVER_WORDS;

pub const PATTERN_WORDS: usize = STEPS_AT + MOST_STEPS * STEP_WORDS;

// Where a pattern's words stand.
pub const WITHIN_AT: usize = 0;

pub const LATE_AT: usize = 1;

pub const COUNT_AT: usize = 2;

pub const STEPS_AT: usize = 3;

// Where tests begin in a step or a never, and nevers in a step.
pub const TESTS_AT: usize = 1;

pub const NEVERS_AT: usize = NEVER_WORDS;
