// The parts of the memory behind its head: the pattern, and the ring of the events that are held.
ghost use Rattle.std.specs.Prelude.{◌≡◌, ◌+◌, ◌-◌, ◌%◌, ◌<◌, ◌≤◌, true, ◌++◌, length, take, drop, nat_lt};
ghost use Rattle.timeline.specs.Order.{nth};
ghost use Rattle.timeline.specs.Held.{held_in};
ghost use Rattle.timeline.specs.Ring.{capacity, events as events_of, with_put, with_forgotten};
ghost use Rattle.patterns.specs.Kept.{kept_pattern};
ghost use Rattle.listener.specs.Machine.{memory_long, cells_of, ring_of, below_run, InRing};

use crate::head::{CELLS, Head, Memory, RING};
use patterns::Kept;
use timeline::{Event, Span, at, forget, put};

// The pattern.
pub fn pattern_in(memory: &Memory) -> Kept<'_>
    ensures { result.words.now ≡ cells_of memory.now }
{
    Kept::over(&memory[CELLS..RING]).unwrap()
}

// Which slots of the ring are held.
pub fn span_of(head: Head) -> Span
    requires { InRing head }
    ensures start { result.start ≡ head.start }
    ensures len { result.len ≡ head.len }
{
    Span::new(head.start, head.len).unwrap()
}

// Whether the event at a position, where one is held, has a time below a bound.
fn is_below(memory: &Memory, span: Span, i: usize, bound: u64) -> bool
    ensures { i < span.len → result ≡ nat_lt (nth (held_in (ring_of memory.now) span) i).time bound }
{
    at(&memory[RING..], span, i).is_some_and(|e| e.time < bound)
}

// The first position from one on whose event has a time that is not below a bound.
pub fn run_below(memory: &Memory, head: Head, from: usize, bound: u64) -> usize
    requires in_ring { InRing head }
    requires from { from ≤ head.len }
    ensures value { result ≡ from + below_run bound (drop from (events_of (ring_of memory.now) head.start head.len)) }
    ensures from { from ≤ result }
    ensures len { result ≤ head.len }
{
    // One by one: each event is passed at most twice, as newly known and as stale, so that a call looks at few; halves would look at more.
    let span = span_of(head);
    (from..head.len)
        .find(|i| !is_below(memory, span, *i, bound))
        .unwrap_or(head.len)
}

// Puts an event into the ring where it belongs. In the clauses, 419 is where the ring begins.
pub fn hold(memory: &mut Memory, head: Head, e: Event)
    requires in_ring { InRing head }
    requires room { head.len < capacity }
    ensures { memory.new ≡ take 419 memory.old ++ with_put (ring_of memory.old) head.start head.len e }
{
    put(&mut memory[RING..], span_of(head), e).unwrap();
}

// Forgets the stale events; which slots are held then.
pub fn forget_stale(memory: &mut Memory, head: Head) -> Span
    requires { InRing head }
    ensures after { memory.new ≡ take 419 memory.old ++ with_forgotten (ring_of memory.old) head.start head.stale }
    ensures start { result.start ≡ (head.start + head.stale) % capacity }
    ensures len { result.len ≡ head.len - head.stale }
{
    forget(&mut memory[RING..], span_of(head), head.stale).unwrap()
}
