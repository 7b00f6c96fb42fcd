// The slots of a span in a ring of lent memory, five numbers each.
ghost use Rattle.std.specs.Prelude.{◌≡◌, ℕ, ◌+◌, ◌-◌, ◌*◌, ◌%◌, ◌<◌, ◌≤◌, min, length, ◌≢◌};
ghost use Rattle.timeline.specs.Order.{nothing};
ghost use Rattle.timeline.specs.Ring.{capacity, ring_long, slot};

use crate::events::{EVENT_NUMBERS, Event};
use crate::spans::{CAPACITY, Span};
use std::ops::Range;

// How many numbers a ring takes.
pub const RING_LONG: usize = CAPACITY * EVENT_NUMBERS;

impl Span {
    // The slot that lies i behind the first, counted round.
    pub(crate) fn slot_behind(self, i: usize) -> usize
        requires { i ≤ capacity }
        ensures { result ≡ (self.start + i) % capacity }
    {
        (self.start + i) % CAPACITY
    }

    // Where the numbers of its slots lie: up to the end of the ring, and from its beginning on.
    pub(crate) fn numbers(self) -> (Range<usize>, Range<usize>)
        ensures front_start { result.0.start ≡ self.start * 5 }
        ensures front_end { result.0.end ≡ min (self.start + self.len) capacity * 5 }
        ensures back_start { result.1.start ≡ 0 }
        ensures back_end { result.1.end ≡ (self.start + self.len - capacity) * 5 }
    {
        let end = self.start + self.len;
        let turn = end.min(CAPACITY);
        (
            self.start * EVENT_NUMBERS..turn * EVENT_NUMBERS,
            0..(end - turn) * EVENT_NUMBERS,
        )
    }

    // The event i behind the first.
    pub(crate) fn get(self, ring: &[u64; RING_LONG], i: usize) -> Event
        requires { i < capacity }
        ensures { result ≡ slot ring.now (self.start + i) }
    {
        let (slots, _) = ring.as_chunks::<EVENT_NUMBERS>();
        Event::from(slots[self.slot_behind(i)])
    }

    // Writes an event into the slot that lies i behind the first.
    pub(crate) fn store(self, ring: &mut [u64; RING_LONG], i: usize, e: Event)
        requires { i < capacity }
        ensures len { length ring.new ≡ ring_long }
        ensures here { slot ring.new (self.start + i) ≡ e }
        ensures others { (k : ℕ) → k < capacity → (k ≢ i) → slot ring.new (self.start + k) ≡ slot ring.old (self.start + k) }
    {
        let n = self.slot_behind(i) * EVENT_NUMBERS;
        ring[n..n + EVENT_NUMBERS].copy_from_slice(&<[u64; EVENT_NUMBERS]>::from(e));
    }

    // Writes zeros into all its slots.
    pub(crate) fn clear(self, ring: &mut [u64; RING_LONG])
        ensures len { length ring.new ≡ ring_long }
        ensures zeros { (k : ℕ) → k < self.len → slot ring.new (self.start + k) ≡ nothing }
        ensures others { (k : ℕ) → self.len ≤ k → k < capacity → slot ring.new (self.start + k) ≡ slot ring.old (self.start + k) }
    {
        let (front, back) = self.numbers();
        ring[front].fill(0);
        ring[back].fill(0);
    }
}
