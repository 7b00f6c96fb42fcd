// Held events by their positions: the two parts of a ring, one after the other.
ghost use Rattle.std.specs.Prelude.{◌≡◌, ℕ, ◌+◌, ◌-◌, ◌<◌, ◌≤◌, true, false, [], length, ◌==◌, nat_le, slice_index_or, ◌++◌};
ghost use Rattle.timeline.specs.Order.{nth};
ghost use Rattle.timeline.specs.Ring.{decode};
ghost use Rattle.rows.specs.Parts.{event_of};
ghost use Rattle.rows.specs.Held.{OfNeither, OfAnother};

use std::marker::Model;
use timeline::{EVENT_NUMBERS, Event};

#[derive(Drop)]
pub struct Held<'a> {
    front: &'a [[u64; EVENT_NUMBERS]],
    back: &'a [[u64; EVENT_NUMBERS]],
}

impl<'a> Model for Held<'a> {
    ghost use Rattle.std.specs.Prelude.{List};
    ghost use Rattle.timeline.specs.declared.events.Event.{Event};

    ghost Value = { List Event };

    ghost use Rattle.rows.specs.Parts.{in_parts};

    ghost view = { in_parts };
}

// Whether a time is no later than another and the window.
pub fn is_within(time: u64, first: u64, within: u64) -> bool
    ensures { result ≡ nat_le time (first + within) }
{
    time.saturating_sub(first) <= within
}

// The first place of a part whose event passes a test; the part's length where there is none.
fn first_in<F: Fn(Event) -> bool>(part: &[[u64; EVENT_NUMBERS]], test: &F) -> usize
    requires { F.IsAlwaysCallable test.now }
    ensures bound { result ≤ length part.now }
    ensures passed { (i : ℕ) → i < result → F.post test.now (event_of (slice_index_or part.now i [])) false }
    ensures stops { result < length part.now → F.post test.now (event_of (slice_index_or part.now result [])) true }
{
    part.iter()
        .position(|numbers| test(Event::from(*numbers)))
        .unwrap_or(part.len())
}

impl<'a> Held<'a> {
    // The events of two parts, five numbers an event; fewer than five at the end of a part are left out.
    pub fn over(front: &'a [u64], back: &'a [u64]) -> Held<'a>
        ensures { result ≡ decode front.now ++ decode back.now }
    {
        Held {
            front: front.as_chunks().0,
            back: back.as_chunks().0,
        }
    }

    // How many events.
    pub fn count(&self) -> usize
        ensures { result ≡ length self.now }
    {
        self.front.len() + self.back.len()
    }

    // The event at a position.
    pub fn get(&self, p: usize) -> Event
        requires { p < length self.now }
        ensures { result ≡ nth self.now p }
    {
        let n = self.front.len();
        if p < n {
            Event::from(self.front[p])
        } else {
            Event::from(self.back[p - n])
        }
    }

    // The events from one position on and before an end, in the two parts. Here and below the two positions are parameters and no struct
    // that keeps both: who asks has them for one call, and to make the struct would show the same two facts as the clauses ask.
    fn between(
        &self,
        from: usize,
        end: usize,
    ) -> (&'a [[u64; EVENT_NUMBERS]], &'a [[u64; EVENT_NUMBERS]])
        requires order { from ≤ end }
        requires inside { end ≤ length self.now }
        ensures front { (i : ℕ) → i < length result.0.now → event_of (slice_index_or result.0.now i []) ≡ nth self.now (from + i) }
        ensures back { (i : ℕ) → i < length result.1.now → event_of (slice_index_or result.1.now i []) ≡ nth self.now (from + length result.0.now + i) }
        ensures many { length result.0.now + length result.1.now ≡ end - from }
    {
        let n = self.front.len();
        let front = &self.front[from.min(n)..end.min(n)];
        let back = &self.back[from.max(n) - n..end.max(n) - n];
        (front, back)
    }

    // The first position from one on and before an end whose event passes a test; the end where there is none.
    fn first<F: Fn(Event) -> bool>(&self, from: usize, end: usize, test: F) -> usize
        requires order { from ≤ end }
        requires inside { end ≤ length self.now }
        requires callable { F.IsAlwaysCallable test }
        ensures bounds { (from ≤ result) × (result ≤ end) }
        ensures passed { (i : ℕ) → i < result → from ≤ i → F.post test (nth self.now i) false }
        ensures stops { result < end → F.post test (nth self.now result) true }
    {
        let (front, back) = self.between(from, end);
        let i = first_in(front, &test);
        if i < front.len() {
            return from + i;
        }
        from + i + first_in(back, &test)
    }

    // The first position from one on and before the end whose event is of one of two kinds; the end where there is none.
    pub fn next_of_kinds(&self, one: u64, other: u64, from: usize, end: usize) -> usize
        requires order { from ≤ end }
        requires inside { end ≤ length self.now }
        ensures bounds { (from ≤ result) × (result ≤ end) }
        ensures passed { (i : ℕ) → i < result → from ≤ i → OfNeither one other (nth self.now i) }
        ensures stops { result < end → OfNeither one other (nth self.now result) → ⊥ }
    {
        self.first(from, end, |e| e.kind == one || e.kind == other)
    }

    // The first position from one on and before the end whose event is of a kind; the end where there is none.
    pub fn next_of_kind(&self, kind: u64, from: usize, end: usize) -> usize
        requires order { from ≤ end }
        requires inside { end ≤ length self.now }
        ensures bounds { (from ≤ result) × (result ≤ end) }
        ensures passed { (i : ℕ) → i < result → from ≤ i → ((nth self.now i).kind == kind) ≡ false }
        ensures stops { result < end → ((nth self.now result).kind == kind) ≡ true }
    {
        self.first(from, end, |e| e.kind == kind)
    }

    // The first position from one on and before the end whose event is of a who and a kind; the end where there is none.
    pub fn next_of_who(&self, who: u64, kind: u64, from: usize, end: usize) -> usize
        requires order { from ≤ end }
        requires inside { end ≤ length self.now }
        ensures bounds { (from ≤ result) × (result ≤ end) }
        ensures passed { (i : ℕ) → i < result → from ≤ i → OfAnother who kind (nth self.now i) }
        ensures stops { result < end → OfAnother who kind (nth self.now result) → ⊥ }
    {
        self.first(from, end, |e| e.who == who && e.kind == kind)
    }

    // The last position from one on and before the end whose event is of a kind; the first of them where there is none.
    pub fn last_of_kind(&self, kind: u64, from: usize, end: usize) -> usize
        requires order { from ≤ end }
        requires inside { end ≤ length self.now }
        ensures bounds { (from ≤ result) × (result ≤ end) }
        ensures found { from < result → (result < end) × (((nth self.now result).kind == kind) ≡ true) }
        ensures last { (i : ℕ) → result < i → i < end → ((nth self.now i).kind == kind) ≡ false }
    {
        let (front, back) = self.between(from, end);
        let is_of_kind = |numbers: &[u64; EVENT_NUMBERS]| Event::from(*numbers).kind == kind;
        if let Some(i) = back.iter().rposition(is_of_kind) {
            return from + front.len() + i;
        }
        front
            .iter()
            .rposition(is_of_kind)
            .map_or(from, |i| from + i)
    }

    // The first position before the end from which a time is within the window; the end where there is none.
    pub fn first_in_reach(&self, time: u64, within: u64, end: usize) -> usize
        requires { end ≤ length self.now }
        ensures bounds { result ≤ end }
        ensures passed { (i : ℕ) → i < result → nat_le time ((nth self.now i).time + within) ≡ false }
        ensures stops { result < end → nat_le time ((nth self.now result).time + within) ≡ true }
    {
        self.first(0, end, |e| is_within(time, e.time, within))
    }
}
