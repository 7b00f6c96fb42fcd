// An event, which of two comes first, and the numbers that it is written as.
ghost use Rattle.std.specs.Prelude.{◌≡◌};
ghost use Rattle.timeline.specs.Order.{before as is_before};
ghost use Rattle.timeline.specs.Ring.{event_at, numbers_of};

// How many numbers an event is written as.
pub const EVENT_NUMBERS: usize = 5;

// Something that happened: when, of which kind, who and with which value; and as how many-th it was heard of, from 0.
#[derive(Clone, Copy, Debug, PartialEq, Eq)]
pub struct Event {
    pub heard: u64,
    pub time: u64,
    pub kind: u64,
    pub who: u64,
    pub value: u64,
}

impl Event {
    // What stands where there is no event.
    pub const NOTHING: Event = Event {
        heard: 0,
        time: 0,
        kind: 0,
        who: 0,
        value: 0,
    };

    // Whether this one comes first: by time, of the same time by which was heard of first.
    pub fn before(self, other: Event) -> bool
        ensures { result ≡ is_before self other }
    {
        (self.time, self.heard) < (other.time, other.heard)
    }
}

impl From<[u64; EVENT_NUMBERS]> for Event {
    ghost from_gives = { λ numbers e. e ≡ event_at numbers 0 };

    fn from([heard, time, kind, who, value]: [u64; EVENT_NUMBERS]) -> Event {
        Event {
            heard,
            time,
            kind,
            who,
            value,
        }
    }
}

impl From<Event> for [u64; EVENT_NUMBERS] {
    ghost from_gives = { λ e numbers. numbers ≡ numbers_of e };

    fn from(e: Event) -> [u64; EVENT_NUMBERS] {
        [e.heard, e.time, e.kind, e.who, e.value]
    }
}
