// A text read: its pattern's numbers, or the byte at which no pattern can go on.
ghost use Rattle.std.specs.Prelude.{◌≡◌, true, take, IfOk};
ghost use Rattle.patterns.specs.Limits.{a_pattern};
ghost use Rattle.patterns.specs.Numbers.{pattern_in};
ghost use Rattle.syntax.specs.declared.reading.Refusal.TheVariants.{At};
ghost use Rattle.syntax.specs.Reading.{reads};
ghost use Rattle.syntax.specs.Readers.{Rowed, Answers};

use crate::drafts::Row;
use crate::expects::Expected;
use crate::readers::Reader;

// The byte with which no pattern goes on, or the end of a text that breaks off, and what could have stood there.
#[derive(Clone, Copy, PartialEq, Eq, Debug)]
pub struct Stop {
    pub at: usize,
    pub expected: Expected,
}

// Why a text is not read.
#[derive(Clone, Copy, PartialEq, Eq, Debug)]
pub enum Refusal {
    // The byte with which no pattern goes on, or the end of a text that breaks off, and what could have stood there.
    At(usize, Expected),
    // The lent row is too short for so many numbers.
    Short(usize),
}

impl From<Stop> for Refusal {
    ghost from_gives = { λ s e. e ≡ At s.at s.expected };

    fn from(stop: Stop) -> Refusal {
        Refusal::At(stop.at, stop.expected)
    }
}

// The numbers of the pattern that a text says.
pub fn row_of(text: &[u8]) -> Result<Row, Stop>
    ensures { Rowed (reads text.now) result }
{
    let mut reader = Reader::new();
    for (at, byte) in text.iter().enumerate() {
        reader
            .read(*byte)
            .map_err(|expected| Stop { at, expected })?;
    }
    reader.finish().map_err(|expected| Stop {
        at: text.len(),
        expected,
    })
}

// The text's pattern, as numbers at the front of the lent row: how many there are. A refusal leaves the row as it was.
pub fn read(text: &[u8], out: &mut [u64]) -> Result<usize, Refusal>
    ensures answer { Answers (reads text.now) out.old out.new result }
    ensures pattern { IfOk result (λ n. a_pattern (pattern_in (take n out.new)) ≡ true) }
{
    let row = row_of(text)?;
    let needed = row.len();
    if out.len() < needed {
        return Err(Refusal::Short(needed));
    }
    out[..needed].copy_from_slice(row.as_slice());
    Ok(needed)
}
