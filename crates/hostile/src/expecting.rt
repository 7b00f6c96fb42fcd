// What the listener has to answer, and what its memory has to be then: all but which rows there are.
use crate::layout::{
    COUNT, KINDS, KNOWN, LATE, LATEST, LEN, MOST_STEPS, NUMBERS, PHASE, PLACES, ROOM, SLOTS, STALE,
    START, UPTO, WITHIN,
};
use crate::mirror::{Mirror, Phase};
use listener::{Call, Refusal};
use patterns::{PATTERN_WORDS, keep};
use std::array;
use timeline::Event;

// Whether a row is looked for from the beginning, or behind one that was told.
#[derive(Clone, Copy, PartialEq, Eq)]
pub enum Search {
    Begins,
    GoesOn,
}

#[derive(Clone, Copy, PartialEq, Eq)]
pub enum Expected {
    Waits,
    Late,
    // A row; and when there is none left, this phase.
    RowOr(Search, Phase),
}

fn event_in(row: &[u64], heard: u64) -> Event {
    let [time, kind, who, value]: [u64; 4] = array::from_fn(|i| row.get(i).copied().unwrap_or(0));
    Event {
        heard,
        time,
        kind,
        who,
        value,
    }
}

fn is_event(e: Event) -> bool {
    e.time < NUMBERS && e.kind < KINDS && e.who < NUMBERS && e.value < NUMBERS
}

fn is_before(a: Event, b: Event) -> bool {
    (a.time, a.heard) < (b.time, b.heard)
}

impl Mirror {
    fn add(&mut self, at: usize, more: u64) {
        self.set(at, self.get(at).saturating_add(more));
    }

    fn set_places(&mut self, first: u64) {
        let mut places = [0; MOST_STEPS];
        places[0] = first;
        self.lay(PLACES, &places);
    }

    fn enter(&mut self, phase: Phase) {
        self.set(PHASE, u64::from(phase));
    }

    // Which words stand for a pattern is asked of `keep`, as the listener asks it: what it lays is proved beside its contract, and here it
    // is only tried that the listener lays it where it must.
    fn begin(&mut self, row: &[u64]) -> Result<Expected, Refusal> {
        let mut words = [0; PATTERN_WORDS];
        keep(row, &mut words).map_err(|_| Refusal::NoPattern)?;
        self.lay(PHASE, &[0; WITHIN]);
        self.lay(WITHIN, &words);
        self.enter(Phase::Waiting);
        Ok(Expected::Waits)
    }

    // Puts an event behind all that aren't behind it, looked for from the end. Those behind it move on by one position: the events are
    // words of a ring, which no slice of events holds.
    fn hold(&mut self, e: Event) {
        let len = self.get(LEN);
        let before = (0..len)
            .rev()
            .find(|position| !is_before(e, self.event(*position)));
        let place = before.map_or(0, |position| position.saturating_add(1));
        for position in (place..len).rev() {
            self.set_event(position.saturating_add(1), self.event(position));
        }
        self.set_event(place, e);
        self.add(LEN, 1);
    }

    fn come(&mut self, e: Event) -> Result<Expected, Refusal> {
        if !is_event(e) {
            return Err(Refusal::OutOfTurn);
        }
        let late = self.get(LATE);
        if e.time < self.get(LATEST).saturating_sub(late) {
            self.add(COUNT, 1);
            return Ok(Expected::Late);
        }
        let latest = self.get(LATEST).max(e.time);
        let mark = latest.saturating_sub(late);
        let stale = self.run_below(0, mark.saturating_sub(self.get(WITHIN)));
        let named = self.names(e.kind);
        let stays = self.get(LEN).saturating_sub(stale);
        if stays > ROOM || named && stays == ROOM {
            self.enter(Phase::Over);
            return Err(Refusal::NoRoom);
        }
        self.add(COUNT, 1);
        self.set(LATEST, latest);
        self.set(STALE, stale);
        if named {
            self.hold(e);
        }
        let known = self.get(KNOWN);
        self.set(UPTO, self.run_below(known, mark.saturating_add(1)));
        self.set_places(known);
        self.enter(Phase::Telling);
        Ok(Expected::RowOr(Search::Begins, Phase::Waiting))
    }

    fn finish(&mut self) -> Expected {
        let len = self.get(LEN);
        self.set(UPTO, len);
        self.set(STALE, len);
        self.set_places(self.get(KNOWN));
        self.enter(Phase::Ending);
        Expected::RowOr(Search::Begins, Phase::Over)
    }

    // What is answered to a call that is taken up; the memory is then as it is while rows are told, where they are.
    pub fn expect(&mut self, call: Call, row: &[u64]) -> Result<Expected, Refusal> {
        match (call, self.standing()) {
            (Call::Pattern, Some(Phase::New)) => self.begin(row),
            (Call::Event, Some(Phase::Waiting)) => self.come(event_in(row, self.get(COUNT))),
            (Call::End, Some(Phase::Waiting)) => Ok(self.finish()),
            (Call::Next, Some(Phase::Telling)) => {
                Ok(Expected::RowOr(Search::GoesOn, Phase::Waiting))
            }
            (Call::Next, Some(Phase::Ending)) => Ok(Expected::RowOr(Search::GoesOn, Phase::Over)),
            _ => Err(Refusal::OutOfTurn),
        }
    }

    // All rows are told: the stale events are forgotten.
    pub fn settle(&mut self, phase: Phase) {
        let stale = self.get(STALE);
        for position in 0..stale {
            self.set_event(position, Event::NOTHING);
        }
        self.set(START, self.get(START).saturating_add(stale) % SLOTS);
        self.set(LEN, self.get(LEN).saturating_sub(stale));
        self.set(KNOWN, self.get(UPTO).saturating_sub(stale));
        self.set(UPTO, 0);
        self.set(STALE, 0);
        self.set_places(0);
        self.enter(phase);
    }
}
