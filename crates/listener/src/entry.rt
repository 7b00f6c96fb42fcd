// One step of the listener: it is told something, and does one act.
ghost use Rattle.std.specs.Prelude.{◌≡◌, ◌≤◌, length, slice_index};
ghost use Rattle.patterns.specs.Limits.{an_event};
ghost use Rattle.patterns.specs.Numbers.{pattern_in};
ghost use Rattle.listener.specs.Machine.{memory_long, begun, came, ended, gone_on, resumed, InRing, machine, event_of, cells_of, cursor_of};
ghost use Rattle.listener.specs.Entry.{Did, call_number, told_of, StepSays, step_fits};

use crate::acts::{Call, Refusal, Told};
use crate::head::{CELLS, Head, Memory, Phase, RING, Row, Turn};
use crate::memory::pattern_in;
use crate::turns::{begin_at, hear, tell, tell_holding, tell_newly};
use patterns::layout::{KINDS, NUMBERS};
use patterns::{keep, number_at};
use rows::Cursor;
use timeline::Event;

// A row that the listener is told has at most so many numbers.
const ROW_MOST: usize = 1024;

// An event of a row of four numbers, with its number.
fn event_in(row: &[u64], heard: u64) -> Event
    ensures { result ≡ event_of heard (slice_index row.now 0) (slice_index row.now 1) (slice_index row.now 2) (slice_index row.now 3) }
{
    Event {
        heard,
        time: number_at(row, 0),
        kind: number_at(row, 1),
        who: number_at(row, 2),
        value: number_at(row, 3),
    }
}

// Whether an event can be told of: none of its numbers is too large.
fn is_event(e: Event) -> bool
    ensures { result ≡ an_event e }
{
    e.time < NUMBERS && e.kind < KINDS && e.who < NUMBERS && e.value < NUMBERS
}

// It is given a pattern.
fn begin(memory: &mut Memory, row: &[u64], out: &mut Row) -> Result<Told, Refusal>
    ensures { Did (begun memory.old (pattern_in row.now)) result memory.new out.old out.new }
{
    // A check stands by itself, before what it is for: it hands on its value, or the function is left there, by `let .. else`.
    let Some(_) = Head::in_phase(memory, Phase::New) else {
        return Err(Refusal::OutOfTurn);
    };
    let Ok(_) = keep(row, &mut memory[CELLS..RING]) else {
        return Err(Refusal::NoPattern);
    };
    Head::BLANK.store(memory, Phase::Waiting);
    Ok(Told::Waits)
}

// It is told of an event.
fn come(memory: &mut Memory, row: &[u64], out: &mut Row) -> Result<Told, Refusal>
    ensures { Did (came memory.old (slice_index row.now 0) (slice_index row.now 1) (slice_index row.now 2) (slice_index row.now 3)) result memory.new out.old out.new }
{
    let Some(head) = Head::in_phase(memory, Phase::Waiting) else {
        return Err(Refusal::OutOfTurn);
    };
    let e = event_in(row, head.count);
    if !is_event(e) {
        return Err(Refusal::OutOfTurn);
    }
    match hear(memory, head, e) {
        Turn::Late => {
            let count = head.count + 1;
            Head { count, ..head }.store(memory, Phase::Waiting);
            Ok(Told::Late)
        }
        Turn::Full => {
            head.store(memory, Phase::Over);
            Err(Refusal::NoRoom)
        }
        Turn::Counts { head, named } => {
            if named {
                tell_holding(memory, head, e, out)
            } else {
                tell_newly(memory, head, out)
            }
        }
    }
}

// Nothing more comes.
fn finish(memory: &mut Memory, out: &mut Row) -> Result<Told, Refusal>
    ensures { Did (ended memory.old) result memory.new out.old out.new }
{
    let Some(head) = Head::in_phase(memory, Phase::Waiting) else {
        return Err(Refusal::OutOfTurn);
    };
    let head = Head {
        upto: head.len,
        stale: head.len,
        ..head
    };
    tell(memory, Phase::Ending, head, begin_at(head.known), out)
}

// The cursor behind the row that was told last.
fn cursor_of(memory: &Memory, head: Head) -> Cursor
    ensures { result ≡ cursor_of (cells_of memory.now) head }
{
    let depth = pattern_in(memory).steps().saturating_sub(1);
    let at = head.at;
    Cursor { depth, at }
}

// The telling of a phase goes on.
fn resume(memory: &mut Memory, phase: Phase, head: Head, out: &mut Row) -> Result<Told, Refusal>
    requires { InRing head }
    ensures { Did (resumed phase memory.old head) result memory.new out.old out.new }
{
    let cursor = cursor_of(memory, head);
    tell(memory, phase, head, cursor, out)
}

// It is to go on telling. The head is looked at for each phase in which rows are told: one look for both would have to read the phase back
// from its word, which nothing else needs.
fn go_on(memory: &mut Memory, out: &mut Row) -> Result<Told, Refusal>
    ensures { Did (gone_on memory.old) result memory.new out.old out.new }
{
    if let Some(head) = Head::in_phase(memory, Phase::Telling) {
        return resume(memory, Phase::Telling, head, out);
    }
    let Some(head) = Head::in_phase(memory, Phase::Ending) else {
        return Err(Refusal::OutOfTurn);
    };
    resume(memory, Phase::Ending, head, out)
}

fn act(memory: &mut Memory, call: Call, row: &[u64], out: &mut Row) -> Result<Told, Refusal>
    ensures { Did (machine memory.old (told_of (call_number call) row.now)) result memory.new out.old out.new }
{
    match call {
        Call::Pattern => begin(memory, row, out),
        Call::Event => come(memory, row, out),
        Call::End => finish(memory, out),
        Call::Next => go_on(memory, out),
    }
}

// One step: it is told a pattern, an event, that nothing more comes, or to go on, each by the number of its call, and does one act. A row
// that is told stands in front of the lent row. Where the slices or the kind don't fit it is a misfit, and nothing is changed.
pub fn step(memory: &mut [u64], kind: u64, row: &[u64], out: &mut [u64]) -> Result<Told, Refusal>
    ensures { StepSays memory.old kind row.now out.old (step_fits memory.old kind row.now out.old) result memory.new out.new }
{
    let call = Call::try_from(kind)?;
    if row.len() > ROW_MOST {
        return Err(Refusal::Misfit);
    }
    let Some(memory) = memory.as_mut_array() else {
        return Err(Refusal::Misfit);
    };
    let Some(out) = out.first_chunk_mut() else {
        return Err(Refusal::Misfit);
    };
    act(memory, call, row, out)
}
