// A test, and the five numbers that say it in a row and in a kept pattern.
ghost use Rattle.std.specs.Prelude.{◌≡◌, ◌+◌, ◌≤◌, slice_index};
ghost use Rattle.patterns.specs.Kept.{test_cells, kept_test};
ghost use Rattle.patterns.specs.Codes.{test_of, comparison};
ghost use Rattle.patterns.specs.Reading.{other_may, ReadsTest};

use crate::fields::{Field, Sign};
use crate::layout::{FIELDS, NUMBERS, SIGNS, TEST_WORDS};
use std::array;

// A test: what is compared, how, and with what.
#[derive(Clone, Copy, PartialEq, Eq, Debug)]
pub struct Comparison {
    pub what: Field,
    pub sign: Sign,
    // The earlier step with whose event it compares; none where it compares with a number.
    pub step: Option<u64>,
    // The field of that event, or the number.
    pub other: u64,
}

// The field, the sign, 0 where it compares with a number, the step and the other; any five numbers are a test.
impl From<[u64; TEST_WORDS]> for Comparison {
    ghost from_gives = { λ words test. test ≡ comparison (kept_test words 0) };

    fn from(words: [u64; TEST_WORDS]) -> Comparison {
        let [what, sign, back, step, other] = words;
        Comparison {
            what: Field::from(what),
            sign: Sign::from(sign),
            step: (back != 0).then_some(step),
            other,
        }
    }
}

// The same way back: 1 and the step, or 0 and 0.
impl From<Comparison> for [u64; TEST_WORDS] {
    ghost from_gives = { λ test words. words ≡ test_cells (test_of test) };

    fn from(test: Comparison) -> [u64; TEST_WORDS] {
        let what = u64::from(test.what);
        let sign = u64::from(test.sign);
        match test.step {
            Some(step) => [what, sign, 1, step, test.other],
            None => [what, sign, 0, 0, test.other],
        }
    }
}

// What stands at a place, and 0 behind the end.
pub fn number_at(row: &[u64], pos: usize) -> u64
    ensures { result ≡ slice_index row.now pos }
{
    row.get(pos).copied().unwrap_or(0)
}

impl Comparison {
    // Whether a step with so many before it may compare with this.
    fn other_may_be(self, before: u64) -> bool
        ensures { result ≡ other_may before self.step self.other }
    {
        match self.step {
            Some(step) => step < before && self.other < FIELDS,
            None => self.other < NUMBERS,
        }
    }

    // The test that five numbers say; None where no step with so many before it may have it.
    fn checked(words: [u64; TEST_WORDS], before: u64) -> Option<Comparison>
        ensures { ReadsTest before (kept_test words 0) result }
    {
        let [what, sign, _, _, _] = words;
        let test = Comparison::from(words);
        if what >= FIELDS || sign >= SIGNS || !test.other_may_be(before) {
            return None;
        }
        Some(test)
    }

    // The test at a place of a row, which is no longer than the largest pattern; None where no step with so many before it may have it.
    pub(crate) fn read(row: &[u64], pos: usize, before: u64) -> Option<Comparison>
        requires { pos ≤ 405 }
        ensures { ReadsTest before (kept_test row.now pos) result }
    {
        let words = array::from_fn(|i: usize| number_at(row, pos + i));
        Comparison::checked(words, before)
    }
}
