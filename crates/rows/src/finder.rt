// All rows of a pattern among events, found by looking through everything, step by step as the definition has it. It is what other ways
// to find them are compared with, so it is plain. With them it shares what patterns gives of a pattern: `keep`, and the trying of an event
// by the tests and nevers of a step (`Kept::fits`, `Kept::hit`). Order, window and what lies between are its own.
ghost use Rattle.std.specs.Prelude.{◌≡◌, true, false, [], IfOk, IfErr};
ghost use Rattle.timeline.specs.Lists.{each};
ghost use Rattle.patterns.specs.Kept.{kept_pattern};
ghost use Rattle.rows.specs.Rows.{rows as rows_of, all_rows};
ghost use Rattle.rows.specs.Known.{numbers as numbers_of, counted as counted_of};
ghost use Rattle.patterns.specs.Limits.{a_pattern};
ghost use Rattle.patterns.specs.Numbers.{pattern_in};
ghost use Rattle.rows.specs.Finder.{lists, Finds};
ghost use Rattle.rows.specs.declared.finder.FindError.TheVariants.{NoPattern, Memory};

use crate::extension::Extension;
use crate::insertion::{rows_in_order, sorted};
use crate::lateness::counted;
use patterns::{Kept, PATTERN_WORDS, Refusal, keep};
use std::alloc::{AllocError, Global};
use timeline::Event;

// Why nothing is found.
#[derive(Clone, Copy, PartialEq, Eq, Debug)]
pub enum FindError {
    // The row of numbers says no pattern that may be.
    NoPattern,
    // There is not enough memory for the rows.
    Memory,
}

impl From<AllocError> for FindError {
    ghost from_gives = { λ _ r. r ≡ Memory };

    fn from(_error: AllocError) -> FindError {
        FindError::Memory
    }
}

impl From<Refusal> for FindError {
    ghost from_gives = { λ _ r. r ≡ NoPattern };

    fn from(_refusal: Refusal) -> FindError {
        FindError::NoPattern
    }
}

// The rows among events in time: from the row of no event on, each step makes all rows so far longer by one event.
fn rows_among(heap: Global, pattern: Kept<'_>, all: &[Event]) -> Result<Vec<Vec<Event>>, AllocError>
    ensures { IfOk result (λ v. lists v.items ≡ rows_of all.now (kept_pattern pattern.entry.words.now).within (kept_pattern pattern.entry.words.now).steps []) }
{
    let mut rows = Vec::new(heap);
    rows.push(Vec::new(heap))?;
    for step in 0..pattern.steps() {
        let extension = Extension { pattern, step, all };
        rows = extension.all_go_on(heap, &rows)?;
    }
    Ok(rows)
}

// A row by its events' numbers.
fn numbers(heap: Global, row: &[Event]) -> Result<Vec<u64>, AllocError>
    ensures { IfOk result (λ v. v.items ≡ numbers_of row.now) }
{
    row.iter().map(|e| e.heard).collect(heap)
}

// Rows by their events' numbers.
fn all_numbers(heap: Global, rows: &[Vec<Event>]) -> Result<Vec<Vec<u64>>, AllocError>
    ensures { IfOk result (λ v. lists v.items ≡ each numbers_of (lists rows.now)) }
{
    rows.iter().map(|row| numbers(heap, row)).try_collect(heap)
}

// The words of the pattern that a row of numbers says.
fn words_of(row: &[u64]) -> Result<[u64; PATTERN_WORDS], FindError>
    ensures ok { IfOk result (λ words. (a_pattern (pattern_in row.now) ≡ true) × (kept_pattern words ≡ pattern_in row.now)) }
    ensures err { IfErr result (λ e. (e ≡ NoPattern) × (a_pattern (pattern_in row.now) ≡ false)) }
{
    let mut words = [0; PATTERN_WORDS];
    keep(row, &mut words)?;
    Ok(words)
}

fn find_kept(heap: Global, pattern: Kept<'_>, events: &[Event]) -> Result<Vec<Vec<u64>>, AllocError>
    ensures { IfOk result (λ v. lists v.items ≡ each numbers_of (all_rows (kept_pattern pattern.entry.words.now) events.now)) }
{
    let all = sorted(heap, events)?;
    let rows = rows_among(heap, pattern, &all)?;
    let rows = rows_in_order(heap, rows)?;
    all_numbers(heap, &rows)
}

// All rows of the pattern that a row of numbers says among some events, in the order in which they are told, each by its events' numbers.
pub fn find_all(heap: Global, row: &[u64], events: &[Event]) -> Result<Vec<Vec<u64>>, FindError>
    ensures { Finds row.now events.now result }
{
    let words = words_of(row)?;
    let rows = find_kept(heap, Kept { words: &words }, events)?;
    Ok(rows)
}

// The same among those of some events, as they came, that count: all that aren't too late for the pattern. Their numbers are from 0.
pub fn find_counted(heap: Global, row: &[u64], events: &[Event]) -> Result<Vec<Vec<u64>>, FindError>
    ensures { Finds row.now (counted_of (pattern_in row.now) events.now) result }
{
    let words = words_of(row)?;
    let pattern = Kept { words: &words };
    let counted = counted(heap, pattern.late(), events)?;
    let rows = find_kept(heap, pattern, &counted)?;
    Ok(rows)
}
