// What the listener does: it hears an event, tells rows, and settles.
ghost use Rattle.std.specs.Prelude.{true, ◌≡◌, ◌+◌, ◌-◌, ◌<◌, ◌≤◌, ◌++◌, length, take, drop};
ghost use Rattle.timeline.specs.Lists.{pick};
ghost use Rattle.timeline.specs.Ring.{capacity, events as events_of};
ghost use Rattle.patterns.specs.Kept.{kept_pattern};
ghost use Rattle.rows.specs.Finding.{next_found};
ghost use Rattle.rows.specs.SearchLaws.{begin_at};
ghost use Rattle.listener.specs.declared.head.Turn.TheVariants.{Counts};
ghost use Rattle.listener.specs.Machine.{memory_long, cells_of, ring_of, Bounded, InRing, Ready, ReadyTurn, latest_with, settled, tell_from, newly_told, turned, hear as hear_of};
ghost use Rattle.listener.specs.Entry.{Did};

use crate::acts::{Refusal, Told};
use crate::head::{Head, Memory, Phase, RING, ROOM, Row, Turn};
use crate::memory::{forget_stale, hold, pattern_in, run_below, span_of};
use patterns::layout::MOST_STEPS;
use rows::{Cursor, Found, next_row};
use timeline::{Event, parts};

// What an event brings about: it is too late, there is no room, or it counts. It looks at the stale events alone, and changes nothing.
pub fn hear(memory: &Memory, head: Head, e: Event) -> Turn
    requires bounded { Bounded head }
    requires time { e.time < 4611686018427387904 }
    ensures bound { ReadyTurn result }
    ensures value { result ≡ hear_of (kept_pattern (cells_of memory.now)) head (events_of (ring_of memory.now) head.start head.len) e }
{
    let pattern = pattern_in(memory);
    let late = pattern.late();
    if e.time < head.latest.saturating_sub(late) {
        return Turn::Late;
    }
    let latest = head.latest.max(e.time);
    let oldest = latest.saturating_sub(late).saturating_sub(pattern.within());
    let stale = run_below(memory, head, 0, oldest);
    let named = pattern.is_named(e.kind);
    if head.len - stale + usize::from(named) > ROOM {
        return Turn::Full;
    }
    let count = head.count + 1;
    let head = Head {
        count,
        latest,
        stale,
        ..head
    };
    Turn::Counts { head, named }
}

// All rows are told: what is stale is forgotten, and the listener waits, or is over.
fn settle(memory: &mut Memory, phase: Phase, head: Head, out: &mut Row) -> Result<Told, Refusal>
    requires { InRing head }
    ensures { Did (settled phase head (cells_of memory.old) (ring_of memory.old)) result memory.new out.old out.new }
{
    let span = forget_stale(memory, head);
    let head = Head {
        start: span.start,
        len: span.len,
        known: head.upto.saturating_sub(head.stale),
        upto: 0,
        stale: 0,
        at: [0; MOST_STEPS],
        ..head
    };
    // Rows are told in two phases alone; the definition gives each other phase what it gives `Telling`.
    let (next, told) = match phase {
        Phase::Ending => (Phase::Over, Told::Over),
        _ => (Phase::Waiting, Told::Waits),
    };
    head.store(memory, next);
    Ok(told)
}

// The next row from a cursor on.
fn next_in(memory: &Memory, head: Head, cursor: Cursor) -> Option<Found>
    requires { InRing head }
    ensures { result ≡ next_found (events_of (ring_of memory.now) head.start head.len) (kept_pattern (cells_of memory.now)) head.upto cursor }
{
    let (front, back) = parts(&memory[RING..], span_of(head)).unwrap();
    next_row(front, back, pattern_in(memory), head.upto, cursor)
}

// The first so many of six numbers, in front of the lent row.
fn write_row(out: &mut Row, numbers: Row, many: usize)
    requires { many ≤ 6 }
    ensures { out.new ≡ take many numbers ++ drop many out.old }
{
    out[..many].copy_from_slice(&numbers[..many]);
}

// Tells the next row from a cursor on; where there is none, the telling is done with. The phase is passed beside the state, as the
// definitions have it: each caller knows its own.
pub fn tell(
    memory: &mut Memory,
    phase: Phase,
    head: Head,
    cursor: Cursor,
    out: &mut Row,
) -> Result<Told, Refusal>
    requires { InRing head }
    ensures { Did (tell_from phase head (cells_of memory.old) (ring_of memory.old) cursor) result memory.new out.old out.new }
{
    let Some(found) = next_in(memory, head, cursor) else {
        return settle(memory, phase, head, out);
    };
    let steps = pattern_in(memory).steps();
    let at = found.next.at;
    Head { at, ..head }.store(memory, phase);
    write_row(out, found.numbers, steps);
    Ok(Told::Row(steps as u64))
}

// Where a search begins, with the last event at a position.
pub fn begin_at(known: usize) -> Cursor
    ensures { result ≡ begin_at known }
{
    Cursor {
        depth: 0,
        at: [known, 0, 0, 0, 0, 0],
    }
}

// Rows are told whose last events are behind the known ones and not above what is heard to.
pub fn tell_newly(memory: &mut Memory, head: Head, out: &mut Row) -> Result<Told, Refusal>
    requires in_ring { InRing head }
    requires known { head.known ≤ head.len }
    requires latest { head.latest < 4611686018427387904 }
    ensures { Did (newly_told head (cells_of memory.old) (ring_of memory.old)) result memory.new out.old out.new }
{
    let mark = head.latest.saturating_sub(pattern_in(memory).late());
    let upto = run_below(memory, head, head.known, mark + 1);
    let head = Head { upto, ..head };
    tell(memory, Phase::Telling, head, begin_at(head.known), out)
}

// The same, with an event that has to be held put in where it belongs.
pub fn tell_holding(
    memory: &mut Memory,
    head: Head,
    e: Event,
    out: &mut Row,
) -> Result<Told, Refusal>
    requires { Ready head }
    ensures { Did (turned head (cells_of memory.old) (ring_of memory.old) e (Counts head true)) result memory.new out.old out.new }
{
    hold(memory, head, e);
    let len = head.len + 1;
    tell_newly(memory, Head { len, ..head }, out)
}
