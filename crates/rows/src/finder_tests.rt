// The finder on small cases, worked by hand.
use crate::*;
use std::alloc::{AllocError, Global};
use std::process::Abort;
use std::test::Fail;
use timeline::Event;

// Events by time and kind, all of one who.
fn events(heap: Global, told: &[(u64, u64)]) -> Result<Vec<Event>, AllocError> {
    told.iter()
        .enumerate()
        .map(|(i, (time, kind))| Event {
            heard: i as u64,
            time: *time,
            kind: *kind,
            who: 0,
            value: 0,
        })
        .collect(heap)
}

// Whether just these rows are found, in this order; all numbers of the rows one after the other.
fn finds(
    rt: &impl Abort,
    heap: Global,
    pattern: &[u64],
    told: &[(u64, u64)],
    rows: &[u64],
) -> Result<(), Fail> {
    let events = events(heap, told)?;
    let found = find_all(heap, pattern, &events).expect(rt, "a pattern and room for its rows");
    let mut numbers = Vec::new(heap);
    for row in found.iter() {
        numbers.extend_from_slice(row)?;
    }
    assert_eq!(rt; numbers.as_slice(), rows);
    Ok(())
}

#[test]
fn small_cases(rt: HostRuntime) -> Result<(), Fail> {
    let heap = rt.alloc();
    let one = [0u64, 0, 1, 1, 0, 0];
    finds(&rt, heap, &one, &[], &[])?;
    finds(&rt, heap, &one, &[(10, 1), (5, 1), (7, 2)], &[1, 0])?;
    // of the same time the one heard of first is before the other
    let at_once = [0u64, 0, 2, 1, 0, 0, 2, 0, 0];
    finds(
        &rt,
        heap,
        &at_once,
        &[(5, 1), (5, 2), (5, 1), (6, 2)],
        &[0, 1],
    )?;
    // the window's edge
    let near = [10u64, 0, 2, 1, 0, 0, 2, 0, 0];
    finds(&rt, heap, &near, &[(5, 1), (15, 2), (16, 2)], &[0, 1])?;
    // an event in two rows; by the last event, then by the first
    finds(
        &rt,
        heap,
        &near,
        &[(1, 1), (2, 2), (3, 2), (0, 1)],
        &[3, 1, 0, 1, 3, 2, 0, 2],
    )?;
    // six steps
    let six = [
        0u64, 0, 6, 1, 0, 0, 2, 0, 0, 3, 0, 0, 4, 0, 0, 5, 0, 0, 6, 0, 0,
    ];
    finds(
        &rt,
        heap,
        &six,
        &[(9, 1), (9, 2), (9, 3), (9, 4), (9, 5), (9, 6)],
        &[0, 1, 2, 3, 4, 5],
    )
}

// A never at the edges: of the time of the first event or of the last, and heard of before it or after.
#[test]
fn nevers(rt: HostRuntime) -> Result<(), Fail> {
    let heap = rt.alloc();
    let pattern = [60u64, 0, 2, 1, 0, 0, 2, 0, 1, 3, 0];
    finds(
        &rt,
        heap,
        &pattern,
        &[(5, 3), (5, 1), (9, 2), (9, 3)],
        &[1, 2],
    )?;
    finds(&rt, heap, &pattern, &[(5, 1), (5, 3), (9, 2)], &[])?;
    finds(&rt, heap, &pattern, &[(5, 1), (9, 3), (9, 2)], &[])
}

#[test]
fn no_pattern(rt: HostRuntime) {
    for row in [[60u64, 20, 0, 0, 0, 0], [60, 20, 1, 65_536, 0, 0]] {
        assert_eq!(rt; find_all(rt.alloc(), &row, &[]), Err(FindError::NoPattern));
    }
}
