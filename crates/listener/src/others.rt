// The listener where one that is made otherwise goes wrong.
use self::Noted::{Late, Row};
use crate::tests::{CALM, act, says};
use crate::{Call, MEMORY_LONG, Told};
use std::alloc::Global;
use std::process::Abort;
use std::test::Fail;

// As the calm pattern, with never a guard between; and where one may hear of it 20 late.
const GUARDED: [u64; 11] = [5, 10, 2, 1, 0, 0, 2, 0, 1, 3, 0];

const LATER: [u64; 9] = [5, 20, 2, 1, 0, 0, 2, 0, 0];

// What is noted of an act, with the place of what it came upon: 0 the first event, and the end behind the last.
#[derive(Clone, Copy, PartialEq, Eq, Debug)]
enum Noted {
    // A row of two was told.
    Row(usize, [u64; 2]),
    // The event was too late.
    Late(usize),
}

// A step, and going on while it tells rows: each act but waiting is noted.
fn note_acts(
    rt: &impl Abort,
    memory: &mut [u64],
    call: Call,
    row: &[u64],
    place: usize,
    acts: &mut Vec<Noted>,
) -> Result<(), Fail> {
    let (mut told, mut out) = act(memory, call, row);
    for _ in 0..10 {
        if told != Ok(Told::Row(2)) {
            break;
        }
        acts.push(Row(place, [out[0], out[1]]))?;
        (told, out) = act(memory, Call::Next, &[]);
    }
    if told == Ok(Told::Late) {
        acts.push(Late(place))?;
    }
    assert!(rt; matches!(told, Ok(Told::Waits | Told::Late | Told::Over)));
    Ok(())
}

// What a pattern, the events (time, kind) and the end bring about on a memory that is all 0.
fn acts_of(
    rt: &impl Abort,
    heap: Global,
    memory: &mut [u64],
    pattern: &[u64],
    events: &[[u64; 2]],
) -> Result<Vec<Noted>, Fail> {
    let mut acts = Vec::new(heap);
    says(rt, memory, Call::Pattern, pattern, Ok(Told::Waits));
    for (place, e) in events.iter().enumerate() {
        note_acts(rt, memory, Call::Event, e, place, &mut acts)?;
    }
    note_acts(rt, memory, Call::End, &[], events.len(), &mut acts)?;
    Ok(acts)
}

// Whether just this is noted.
fn brings(
    rt: &impl Abort,
    heap: Global,
    pattern: &[u64],
    events: &[[u64; 2]],
    acts: &[Noted],
) -> Result<(), Fail> {
    let mut memory = [0u64; MEMORY_LONG];
    let noted = acts_of(rt, heap, &mut memory, pattern, events)?;
    assert!(rt; noted.as_slice() == acts);
    Ok(())
}

#[test]
fn other_listeners(rt: HostRuntime) -> Result<(), Fail> {
    let heap = rt.alloc();
    // By order of arrival: misses the door that is heard of behind its lamp, and takes 22 and 20 for a row.
    let events = [[12, 2], [10, 1], [22, 1], [20, 2]];
    brings(&rt, heap, &CALM, &events, &[Row(2, [1, 0])])?;
    // By a clock: tells the row while nothing comes, and doesn't see that 989 is too late as soon as there is 1,000.
    brings(&rt, heap, &CALM, &[[10, 1], [12, 2]], &[Row(2, [0, 1])])?;
    let events = [[10, 1], [12, 2], [1000, 9], [989, 1]];
    brings(&rt, heap, &CALM, &events, &[Row(2, [0, 1]), Late(3)])?;
    // Tells at once and takes back: has told of 10 and 14 when it hears of the guard at 12. With none it is known at 24, not at 23.
    let events = [[10, 1], [14, 2], [12, 3], [40, 9]];
    brings(&rt, heap, &GUARDED, &events, &[])?;
    let events = [[10, 1], [14, 2], [23, 9], [24, 9]];
    brings(&rt, heap, &GUARDED, &events, &[Row(3, [0, 1])])?;
    // Looks for guards only among what came before the lamp: tells of both doors, but the guard is behind the first.
    let events = [[10, 1], [12, 1], [14, 2], [11, 3], [40, 9]];
    brings(&rt, heap, &GUARDED, &events, &[Row(4, [1, 2])])?;
    // Goes by the event that came last in place of the mark: has forgotten the door at 28, and takes 19 for good after 25.
    let events = [[10, 1], [28, 9], [13, 2], [40, 9], [25, 9], [19, 1]];
    brings(&rt, heap, &LATER, &events, &[Row(3, [0, 2]), Late(5)])?;
    // Tells the first row only, or those of one door together.
    let events = [[10, 1], [11, 1], [12, 2], [13, 2], [40, 9]];
    let rows = [
        Row(4, [0, 2]),
        Row(4, [1, 2]),
        Row(4, [0, 3]),
        Row(4, [1, 3]),
    ];
    brings(&rt, heap, &CALM, &events, &rows)?;
    // Goes by numbers in place of times; by times alone, where they are the same; doesn't number what is too late.
    let events = [[10, 1], [14, 2], [12, 2], [40, 9]];
    brings(&rt, heap, &CALM, &events, &[Row(3, [0, 2]), Row(3, [0, 1])])?;
    let events = [[10, 2], [10, 1], [10, 2], [40, 9]];
    brings(&rt, heap, &CALM, &events, &[Row(3, [1, 2])])?;
    let events = [[40, 9], [5, 1], [40, 1], [41, 2]];
    brings(&rt, heap, &CALM, &events, &[Late(1), Row(4, [2, 3])])?;
    // Takes all up to the mark for done with: events of the mark's own time still count, and end rows at once.
    let events = [[40, 9], [30, 1], [30, 2], [30, 2], [29, 2]];
    let rows = [Row(2, [1, 2]), Row(3, [1, 3]), Late(4)];
    brings(&rt, heap, &CALM, &events, &rows)
}
