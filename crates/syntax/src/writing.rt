// A pattern written: from a row of numbers, the text that reads as that pattern.
ghost use Rattle.std.specs.Prelude.{◌≡◌};
ghost use Rattle.syntax.specs.declared.writing.Unwritten.TheVariants.{NoPattern, NoMemory};
ghost use Rattle.syntax.specs.Writing.{Writes};

use crate::typed::TypedPattern;
use patterns::{PATTERN_WORDS, keep};
use std::alloc::{AllocError, Global};

// Why a row is not written.
#[derive(Clone, Copy, PartialEq, Eq, Debug)]
pub enum Unwritten {
    // It says no pattern that may be.
    NoPattern,
    NoMemory,
}

impl From<patterns::Refusal> for Unwritten {
    ghost from_gives = { λ _ e. e ≡ NoPattern };

    fn from(_refusal: patterns::Refusal) -> Unwritten {
        Unwritten::NoPattern
    }
}

impl From<AllocError> for Unwritten {
    ghost from_gives = { λ _ e. e ≡ NoMemory };

    fn from(_error: AllocError) -> Unwritten {
        Unwritten::NoMemory
    }
}

// The text that reads as the pattern of a row. Behind the row's end stand zeros.
pub fn write(heap: Global, row: &[u64]) -> Result<String, Unwritten>
    ensures { Writes row.now result }
{
    let mut words = [0; PATTERN_WORDS];
    keep(row, &mut words)?;
    let pattern = TypedPattern { words: &words };
    let text = format!(in heap; "{pattern}")?;
    Ok(text)
}
