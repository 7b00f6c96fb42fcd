// The listener on small examples: its acts one by one, each call out of turn, garbage, and want of room.
use crate::Call::{End, Event, Next, Pattern};
use crate::Refusal::{Misfit, NoPattern, NoRoom, OutOfTurn};
use crate::Told::{Late, Over, Row, Waits};
use crate::{Call, MEMORY_LONG, Refusal, Told, step};
use std::alloc::Global;
use std::process::Abort;
use std::test::Fail;

// A door, then a lamp within 60 of the same who, and never a guard between; one may hear of it 20 late.
const NIGHT: [u64; 16] = [60, 20, 2, 1, 0, 0, 2, 1, 0, 0, 1, 0, 0, 1, 3, 0];

// A door, then a lamp, within 5; one may hear of it 10 late.
pub const CALM: [u64; 9] = [5, 10, 2, 1, 0, 0, 2, 0, 0];

const BIG: u64 = 4_611_686_018_427_387_904;

const CALLS: [Call; 4] = [Pattern, Event, End, Next];

// One act, and what the lent row of sevens holds then.
pub fn act(memory: &mut [u64], call: Call, row: &[u64]) -> (Result<Told, Refusal>, [u64; 6]) {
    let mut out = [7u64; 6];
    let told = step(memory, u64::from(call), row, &mut out);
    (told, out)
}

// Whether a step answers this, and leaves the lent row alone.
pub fn says(
    rt: &impl Abort,
    memory: &mut [u64],
    call: Call,
    row: &[u64],
    answer: Result<Told, Refusal>,
) {
    assert_eq!(rt; act(memory, call, row), (answer, [7u64; 6]));
}

// Whether a step tells this row of two.
fn tells(rt: &impl Abort, memory: &mut [u64], call: Call, row: &[u64], numbers: [u64; 2]) {
    let [first, second] = numbers;
    assert_eq!(rt;
        act(memory, call, row),
        (Ok(Row(2)), [first, second, 7, 7, 7, 7])
    );
}

#[test]
fn worked_night(rt: HostRuntime) {
    let mut memory = [0u64; MEMORY_LONG];
    says(&rt, &mut memory, Pattern, &NIGHT, Ok(Waits));
    says(&rt, &mut memory, Event, &[100, 1, 7, 0], Ok(Waits));
    says(&rt, &mut memory, Event, &[130, 2, 7, 0], Ok(Waits));
    says(&rt, &mut memory, Event, &[110, 3, 1, 0], Ok(Waits));
    says(&rt, &mut memory, Event, &[150, 1, 8, 0], Ok(Waits));
    says(&rt, &mut memory, Event, &[125, 1, 7, 0], Ok(Late));
    says(&rt, &mut memory, Event, &[160, 2, 8, 0], Ok(Waits));
    says(&rt, &mut memory, Event, &[155, 2, 8, 0], Ok(Waits));
    tells(&rt, &mut memory, Event, &[200, 1, 9, 0], [3, 6]);
    tells(&rt, &mut memory, Next, &[], [3, 5]);
    says(&rt, &mut memory, Next, &[], Ok(Waits));
    says(&rt, &mut memory, End, &[], Ok(Over));
}

// Whether a step is refused so, and changes nothing.
fn refused(
    rt: &impl Abort,
    heap: Global,
    memory: &mut [u64],
    call: Call,
    row: &[u64],
    refusal: Refusal,
) -> Result<(), Fail> {
    let before = memory.to_vec(heap)?;
    says(rt, memory, call, row, Err(refusal));
    assert!(rt; before.as_slice() == &memory[..]);
    Ok(())
}

// Whether each of these calls is out of turn.
fn out_of_turn(
    rt: &impl Abort,
    heap: Global,
    memory: &mut [u64],
    calls: &[Call],
) -> Result<(), Fail> {
    for call in calls {
        let row = match call {
            Pattern => &CALM[..],
            _ => &[5u64, 1, 0, 0][..],
        };
        refused(rt, heap, memory, *call, row, OutOfTurn)?;
    }
    Ok(())
}

// The calls that don't fit what the listener does, in each of its phases, and slices and kinds that don't fit.
#[test]
fn refuses_out_of_turn(rt: HostRuntime) -> Result<(), Fail> {
    let heap = rt.alloc();
    let mut memory = [0u64; MEMORY_LONG];
    out_of_turn(&rt, heap, &mut memory, &[Event, End, Next])?;
    refused(&rt, heap, &mut memory, Pattern, &[5, 10, 0], NoPattern)?;
    says(&rt, &mut memory, Pattern, &CALM, Ok(Waits));
    out_of_turn(&rt, heap, &mut memory, &[Pattern, Next])?;
    refused(&rt, heap, &mut memory, Event, &[BIG, 1, 0, 0], OutOfTurn)?;
    refused(&rt, heap, &mut memory, Event, &[0, 65_536, 0, 0], OutOfTurn)?;
    refused(&rt, heap, &mut memory, Event, &[0, 1, BIG, 0], OutOfTurn)?;
    refused(&rt, heap, &mut memory, Event, &[0, 1, 0, BIG], OutOfTurn)?;
    says(&rt, &mut memory, Event, &[10, 1, 0, 0], Ok(Waits));
    says(&rt, &mut memory, Event, &[12, 2, 0, 0], Ok(Waits));
    tells(&rt, &mut memory, Event, &[22, 2, 0, 0], [0, 1]);
    out_of_turn(&rt, heap, &mut memory, &[Pattern, Event, End])?;
    says(&rt, &mut memory, Next, &[], Ok(Waits));
    says(&rt, &mut memory, Event, &[21, 1, 0, 0], Ok(Waits));
    tells(&rt, &mut memory, End, &[], [3, 2]);
    out_of_turn(&rt, heap, &mut memory, &[Pattern, Event, End])?;
    says(&rt, &mut memory, Next, &[], Ok(Over));
    out_of_turn(&rt, heap, &mut memory, &CALLS)
}

#[test]
fn refuses_misfits(rt: HostRuntime) -> Result<(), Fail> {
    let heap = rt.alloc();
    let mut memory = [0u64; MEMORY_LONG];
    let row = [0u64; 1025];
    refused(&rt, heap, &mut memory[1..], Pattern, &CALM, Misfit)?;
    refused(
        &rt,
        heap,
        &mut [0u64; MEMORY_LONG + 1],
        Pattern,
        &CALM,
        Misfit,
    )?;
    refused(&rt, heap, &mut memory, Pattern, &row, Misfit)?;
    refused(&rt, heap, &mut memory, Pattern, &row[1..], NoPattern)?;
    let before = memory.to_vec(heap)?;
    let mut out = [7u64; 6];
    assert_eq!(rt; step(&mut memory, 4, &CALM, &mut out), Err(Misfit));
    assert_eq!(rt; out, [7u64; 6]);
    assert!(rt; before.as_slice() == &memory[..]);
    let mut short = [7u64; 5];
    assert_eq!(rt; step(&mut memory, 0, &CALM, &mut short), Err(Misfit));
    assert_eq!(rt; short, [7u64; 5]);
    says(&rt, &mut memory, Pattern, &CALM, Ok(Waits));
    Ok(())
}

// The numbers that callers pass and that programs print.
#[test]
fn calls_and_refusals_have_their_numbers(rt: HostRuntime) {
    assert_eq!(rt;
        [Pattern, Event, End, Next].map(|call| u64::from(call)),
        [0, 1, 2, 3]
    );
    let refusals = [Misfit, NoPattern, OutOfTurn, NoRoom];
    assert_eq!(rt; refusals.map(|refusal| u64::from(refusal)), [0, 1, 2, 8]);
}

// Memories that the listener never wrote: each phase, and the same number everywhere behind it. No more than 8,193 events
// can be held. What is refused changes nothing, but that want of room is the end.
#[test]
fn whatever_the_memory_holds(rt: HostRuntime) -> Result<(), Fail> {
    let heap = rt.alloc();
    for number in [1u64, 2, 7, 8_193, 8_194, u64::MAX] {
        for phase in 0..6u64 {
            for call in CALLS {
                let mut memory = [number; MEMORY_LONG];
                memory[0] = phase;
                let before = memory.to_vec(heap)?;
                let (told, out) = act(&mut memory, call, &[5, 1, 0, 0]);
                assert!(rt; told == Err(OutOfTurn) || number < 8_194);
                if let Err(refusal) = told {
                    assert!(rt; out == [7u64; 6]);
                    assert!(rt; refusal == NoRoom || before.as_slice() == &memory[..]);
                }
            }
        }
    }
    Ok(())
}

// Whether an event of each time from 1 to the last, one after the other, is waited with.
fn waits_to(rt: &impl Abort, memory: &mut [u64], last: u64) {
    for time in 1..=last {
        says(rt, memory, Event, &[time, 1, 0, 0], Ok(Waits));
    }
}

// One step, one may hear of it 8,192 late: of 8,192 events all have to be held, and there is no room for one more; one that moves the mark
// makes room for itself, and one that the pattern doesn't name needs none.
#[test]
fn want_of_room(rt: HostRuntime) -> Result<(), Fail> {
    let mut memory = [0u64; MEMORY_LONG];
    says(
        &rt,
        &mut memory,
        Pattern,
        &[0, 8_192, 1, 1, 0, 0],
        Ok(Waits),
    );
    waits_to(&rt, &mut memory, 8_192);
    says(&rt, &mut memory, Event, &[8_192, 2, 0, 0], Ok(Waits));
    assert_eq!(rt;
        act(&mut memory, Event, &[8_194, 1, 0, 0]),
        (Ok(Row(1)), [0u64, 7, 7, 7, 7, 7])
    );
    assert_eq!(rt;
        act(&mut memory, Next, &[]),
        (Ok(Row(1)), [1u64, 7, 7, 7, 7, 7])
    );
    says(&rt, &mut memory, Next, &[], Ok(Waits));
    says(&rt, &mut memory, Event, &[8_194, 1, 0, 0], Err(NoRoom));
    out_of_turn(&rt, rt.alloc(), &mut memory, &CALLS)
}
