// What can be wrong with an event in a file.
ghost use Rattle.std.specs.Prelude.{◌≡◌, not, is_some, Some};
ghost use Rattle.patterns.specs.Limits.{an_event};
ghost use Rattle.files.specs.Events.{part_too_large, too_large};
ghost use Rattle.files.specs.Shown.{part_shown, fault_shown};

use patterns::layout::{KINDS, NUMBERS};
use std::error::Error;
use std::fmt;
use timeline::Event;

// A number of an event.
#[derive(Clone, Copy, Debug, PartialEq, Eq)]
pub enum Part {
    Time,
    Kind,
    Who,
    Value,
}

// In the order of an event's numbers.
const PARTS: [Part; 4] = [Part::Time, Part::Kind, Part::Who, Part::Value];

// Where events in a file go wrong.
#[derive(Clone, Copy, Debug, PartialEq, Eq)]
pub enum Fault {
    // This event has a number that is too large.
    TooLarge(u64, Part),
    // This event is cut off: only so many of its bytes are there.
    CutOff(u64, u64),
}

impl Part {
    // Whether this number of an event is too large.
    fn is_too_large(self, e: Event) -> bool
        ensures { result ≡ part_too_large e self }
    {
        match self {
            Part::Time => e.time >= NUMBERS,
            Part::Kind => e.kind >= KINDS,
            Part::Who => e.who >= NUMBERS,
            Part::Value => e.value >= NUMBERS,
        }
    }
}

// The first number of an event that is too large.
pub fn too_large(e: Event) -> Option<Part>
    ensures part { result ≡ too_large e }
    ensures test { is_some result ≡ not (an_event e) }
{
    PARTS.iter().copied().find(|part| part.is_too_large(e))
}

// By hand, since a `Display` that `thiserror` writes has no `output` to hold it to.
impl fmt::Display for Part {
    ghost output = { λ p. Some (part_shown p) };

    fn fmt<W: fmt::Write>(&self, f: &mut fmt::Formatter<W>) -> fmt::Result {
        match self {
            Part::Time => write!(f, "its time is not below 2^62"),
            Part::Kind => write!(f, "its kind is not below 2^16"),
            Part::Who => write!(f, "its who is not below 2^62"),
            Part::Value => write!(f, "its value is not below 2^62"),
        }
    }
}

impl fmt::Display for Fault {
    ghost output = { λ f. Some (fault_shown f) };

    fn fmt<W: fmt::Write>(&self, f: &mut fmt::Formatter<W>) -> fmt::Result {
        match self {
            Fault::TooLarge(event, part) => write!(f, "event {event}: {part}"),
            Fault::CutOff(event, bytes) => write!(
                f,
                "event {event} is cut off: {bytes} of its 32 bytes are there"
            ),
        }
    }
}

impl Error for Fault {}
