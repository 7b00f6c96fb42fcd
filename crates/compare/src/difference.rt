// Where the listener and what it should say part, told so that it can be seen again.
use crate::said::Said;
use std::fmt;

// At what they part.
#[derive(Clone, Copy, Debug)]
pub enum Place {
    Pattern,
    Event(u64),
    End,
    // All rows together, beside those that the finder finds among the events that count by its own account, or by this program's.
    Counted,
    All,
}

impl fmt::Display for Place {
    fn fmt<W: fmt::Write>(&self, f: &mut fmt::Formatter<W>) -> fmt::Result {
        match self {
            Place::Pattern => write!(f, "at the pattern"),
            Place::Event(number) => write!(f, "at event {number}"),
            Place::End => write!(f, "at the end"),
            Place::Counted => write!(f, "in all, beside find_counted"),
            Place::All => write!(f, "in all, beside find_all"),
        }
    }
}

#[derive(Debug, Drop)]
pub struct Difference {
    pub place: Place,
    pub told: Said,
    pub right: Said,
}

impl fmt::Display for Difference {
    fn fmt<W: fmt::Write>(&self, f: &mut fmt::Formatter<W>) -> fmt::Result {
        write!(
            f,
            "{}, told:{}\nand should be:{}",
            self.place, self.told, self.right
        )
    }
}
