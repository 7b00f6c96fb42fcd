// A pattern kept: from a row of numbers into a lent slice.
ghost use Rattle.patterns.specs.Reading.{Keeps};

use crate::layout::PATTERN_WORDS;
use crate::reading::pattern;

// Why a row is not kept.
#[derive(Clone, Copy, PartialEq, Eq, Debug)]
pub enum Refusal {
    // It says no pattern that may be.
    NoPattern,
    // The lent slice is not of 405 words.
    NotAsLong,
}

// The pattern that a row says, kept in the lent slice. Behind the row's end stand zeros. A refusal leaves the slice as it was.
pub fn keep(row: &[u64], kept: &mut [u64]) -> Result<(), Refusal>
    ensures { Keeps row.now kept.old kept.new result }
{
    if kept.len() != PATTERN_WORDS {
        return Err(Refusal::NotAsLong);
    }
    let words = pattern(row).ok_or(Refusal::NoPattern)?;
    kept.copy_from_slice(&words);
    Ok(())
}
