// A pattern read from a row of numbers, part by part: each is checked, and answers its words and what stands behind it in the row.
// What a part leaves unused is 0 in its words.
ghost use Rattle.std.specs.Prelude.{◌≡◌, ◌+◌, ◌++◌, length, drop};
ghost use Rattle.patterns.specs.Limits.{a_test, some_tests, a_step, a_pattern};
ghost use Rattle.patterns.specs.Numbers.{pattern_in};
ghost use Rattle.patterns.specs.Kept.{kept_test, test_cells, tests_cells, never_cells, nevers_cells, step_cells, pattern_cells};
ghost use Rattle.patterns.specs.Reading.{a_head, First, first_tests, behind_tests, first_never, behind_never, first_nevers, behind_nevers, first_step, behind_step, a_never, some_nevers, Part, IsRead, Reads, ReadsAll, ReadsWhole};

use crate::comparing::Comparison;
use crate::layout::{
    KINDS, MOST_NEVERS, MOST_STEPS, MOST_TESTS, NEVER_WORDS, PATTERN_WORDS, STEP_WORDS, TEST_WORDS,
    TIMES,
};

// The words of tests and of nevers: their count, and room for the most that there can be.
const TESTS_WORDS: usize = 1 + TEST_WORDS * MOST_TESTS;

const NEVERS_WORDS: usize = 1 + NEVER_WORDS * MOST_NEVERS;

// What stands behind so many numbers of a row.
fn behind(row: &[u64], many: usize) -> &[u64]
    ensures { result.now ≡ drop many row.now }
{
    row.get(many..).unwrap_or(&[])
}

// The first number of a row, and what stands behind it; behind a row's end stand zeros.
fn first(row: &[u64]) -> (u64, &[u64])
    ensures { First row.now result }
{
    match row {
        [number, rest @ ..] => (*number, rest),
        [] => (0, row),
    }
}

// Words in front, and words behind them.
fn laid<const N: usize>(front: &[u64], parts: &[u64]) -> [u64; N]
    requires { length front.now + length parts.now ≡ N }
    ensures { result ≡ front.now ++ parts.now }
{
    let mut words = [0; N];
    let (before, rest) = words.split_at_mut(front.len());
    before.copy_from_slice(front);
    rest.copy_from_slice(parts);
    words
}

// A part into each slot, one behind the other in the row, and what stands behind them; reading one is told how many are before it.
fn several<'a, T: Drop, F>(slots: &mut [T], row: &'a [u64], read: F) -> Option<&'a [u64]>
where
    F: Fn(&'a [u64], u64) -> Option<(T, &'a [u64])>,
    requires { F.IsAlwaysCallable read }
    ensures { (part : Part T) → IsRead part (F.post read) → ReadsAll part (length slots.old) row.now slots.new result }
{
    let mut left = row;
    for (before, slot) in slots.iter_mut().enumerate() {
        let (part, rest) = read(left, before as u64)?;
        *slot = part;
        left = rest;
    }
    Some(left)
}

// A test, in 5 words.
fn test(row: &[u64], before: u64) -> Option<([u64; TEST_WORDS], &[u64])>
    ensures { Reads (a_test before (kept_test row.now 0)) (test_cells (kept_test row.now 0)) (drop 5 row.now) result }
{
    let test = Comparison::read(row, 0, before)?;
    Some((test.into(), behind(row, TEST_WORDS)))
}

// Tests, in 21 words.
fn tests(row: &[u64], before: u64) -> Option<([u64; TESTS_WORDS], &[u64])>
    ensures { Reads (some_tests before (first_tests row.now)) (tests_cells (first_tests row.now)) (behind_tests row.now) result }
{
    let (count, rest) = first(row);
    if count > MOST_TESTS as u64 {
        return None;
    }
    let mut tests = [[0; TEST_WORDS]; MOST_TESTS];
    let left = several(
        &mut tests[..count as usize],
        rest,
        |row, _| test(row, before),
    )?;
    Some((laid(&[count], tests.as_flattened()), left))
}

// A kind and tests, in 22 words: a never, or what a step begins with.
fn kind_and_tests(row: &[u64], before: u64) -> Option<([u64; NEVER_WORDS], &[u64])>
    ensures { Reads (a_never before (first_never row.now)) (never_cells (first_never row.now)) (behind_never row.now) result }
{
    let (kind, rest) = first(row);
    if kind >= KINDS {
        return None;
    }
    let (tests, left) = tests(rest, before)?;
    Some((laid(&[kind], &tests), left))
}

// Nevers, in 45 words.
fn nevers(row: &[u64], before: u64) -> Option<([u64; NEVERS_WORDS], &[u64])>
    ensures { Reads (some_nevers before (first_nevers row.now)) (nevers_cells (first_nevers row.now)) (behind_nevers row.now) result }
{
    let (count, rest) = first(row);
    if count > MOST_NEVERS as u64 {
        return None;
    }
    let mut nevers = [[0; NEVER_WORDS]; MOST_NEVERS];
    let left = several(
        &mut nevers[..count as usize],
        rest,
        |row, _| kind_and_tests(row, before),
    )?;
    Some((laid(&[count], nevers.as_flattened()), left))
}

// A step, in 67 words.
fn step(row: &[u64], before: u64) -> Option<([u64; STEP_WORDS], &[u64])>
    ensures { Reads (a_step before (first_step row.now)) (step_cells (first_step row.now)) (behind_step row.now) result }
{
    let (front, rest) = kind_and_tests(row, before)?;
    let (nevers, left) = nevers(rest, before)?;
    Some((laid(&front, &nevers), left))
}

// Whether a pattern's first three numbers may be: the window, the lateness, how many steps.
fn head_may_be(within: u64, late: u64, count: u64) -> bool
    ensures { result ≡ a_head within late count }
{
    within < TIMES && late < TIMES && count >= 1 && count <= MOST_STEPS as u64
}

// The pattern of a row, in 405 words; None where it may not be.
pub(crate) fn pattern(row: &[u64]) -> Option<[u64; PATTERN_WORDS]>
    ensures { ReadsWhole (a_pattern (pattern_in row.now)) (pattern_cells (pattern_in row.now)) result }
{
    let (within, rest) = first(row);
    let (late, rest) = first(rest);
    let (count, rest) = first(rest);
    if !head_may_be(within, late, count) {
        return None;
    }
    let mut steps = [[0; STEP_WORDS]; MOST_STEPS];
    several(&mut steps[..count as usize], rest, step)?;
    Some(laid(&[within, late, count], steps.as_flattened()))
}
