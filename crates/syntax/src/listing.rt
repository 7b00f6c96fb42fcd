// A text read into a row of its own.
ghost use Rattle.std.specs.Prelude.{◌≡◌, ◌≤◌, length, IfOk};
ghost use Rattle.syntax.specs.declared.listing.Unread.TheVariants.{At, NoMemory};
ghost use Rattle.syntax.specs.Reading.{reads};
ghost use Rattle.syntax.specs.Listing.{Listed};

use crate::expects::Expected;
use crate::reading::{Stop, row_of};
use std::alloc::{AllocError, Global};

// Why a text gives no numbers.
#[derive(Clone, Copy, PartialEq, Eq, Debug)]
pub enum Unread {
    // The byte with which no pattern goes on, or the end of a text that breaks off, and what could have stood there.
    At(usize, Expected),
    NoMemory,
}

impl From<Stop> for Unread {
    ghost from_gives = { λ s e. e ≡ At s.at s.expected };

    fn from(stop: Stop) -> Unread {
        Unread::At(stop.at, stop.expected)
    }
}

impl From<AllocError> for Unread {
    ghost from_gives = { λ _ e. e ≡ NoMemory };

    fn from(_error: AllocError) -> Unread {
        Unread::NoMemory
    }
}

// The numbers of the pattern that a text says: no pattern has more than 405.
pub fn numbers(heap: Global, text: &[u8]) -> Result<Vec<u64>, Unread>
    ensures answer { Listed (reads text.now) result }
    ensures short { IfOk result (λ v. length v.items ≤ 405) }
{
    let row = row_of(text)?;
    let numbers = Vec::from_slice(heap, row.as_slice())?;
    Ok(numbers)
}
