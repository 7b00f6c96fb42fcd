// What is said of one thing that the listener is told: rows, and how it ends.
use crate::shapes::MOST_STEPS;
use files::Spaced;
use listener::Refusal;
use std::alloc::Global;
use std::fmt;

// What stands in a lent row where nothing was written.
pub const UNTOUCHED: u64 = u64::MAX;

// A row by its events' numbers, and what stands behind them: the whole lent row, so that a write behind the row shows.
#[derive(Clone, Copy, Debug, PartialEq, Eq)]
pub struct Row {
    pub many: u64,
    pub numbers: [u64; MOST_STEPS],
}

impl Row {
    // The numbers of some things from the left, as many as there is room for.
    pub fn of<T, F: Fn(&T) -> u64>(things: &[T], number: F) -> Row
        requires { F.IsAlwaysCallable number }
    {
        let mut numbers = [UNTOUCHED; MOST_STEPS];
        for (place, thing) in numbers.iter_mut().zip(things) {
            *place = number(thing);
        }
        Row {
            many: things.len() as u64,
            numbers,
        }
    }
}

// What comes behind the rows.
#[derive(Clone, Copy, Debug, PartialEq, Eq)]
pub enum End {
    Waits,
    Late,
    Over,
    Refused(Refusal),
    // Rows without end.
    Endless,
}

impl fmt::Display for End {
    fn fmt<W: fmt::Write>(&self, f: &mut fmt::Formatter<W>) -> fmt::Result {
        match self {
            End::Waits => write!(f, "waits"),
            End::Late => write!(f, "late"),
            End::Over => write!(f, "over"),
            End::Refused(refusal) => write!(f, "refused {}", u64::from(*refusal)),
            End::Endless => write!(f, "and so on"),
        }
    }
}

#[derive(Debug, Drop, PartialEq, Eq)]
pub struct Said {
    pub rows: Vec<Row>,
    pub end: End,
}

// A line for each row, and one for what comes behind them.
impl fmt::Display for Said {
    fn fmt<W: fmt::Write>(&self, f: &mut fmt::Formatter<W>) -> fmt::Result {
        for row in self.rows.iter() {
            write!(f, "\n  row of {}: {}", row.many, Spaced(&row.numbers))?;
        }
        write!(f, "\n  {}", self.end)
    }
}

impl Said {
    pub fn only(heap: Global, end: End) -> Said {
        Said {
            rows: Vec::new(heap),
            end,
        }
    }
}
